// A merged log: its records, what their times allow, and the line about two of them.
#![tactic(auto)]

ghost use Rattle.std.specs.Prelude.{◌≡◌, ◌+◌, ◌≤◌, leb, length};
ghost use Rattle.any_text.specs.Put.{Put};
ghost use Rattle.log_read.specs.Log.{row_of};
ghost use Rattle.log_records.specs.PairLine.{pair_line};

use log_read::Record;

// A merged log that was read: its records, the node count, and how far apart the clocks are at most.
#[derive(Clone, Copy)]
pub struct Merge<'a> {
    pub records: &'a [Record],
    pub nodes: u8,
    pub bound: u64,
}

// Whether a record of this time may stand before one of the other. The sum could be too large for a number of the machine.
pub fn may_precede(time: u64, other: u64, bound: u64) -> bool
    ensures { result ≡ leb time (other + bound) }
{
    time <= other || time - other <= bound
}

// Two records, as they stand in a merge: line, log, time, kind and node of both. The word in front says whether the clocks allow that order.
pub fn put_pair(buf: &mut [u8], at: usize, first: &Record, second: &Record, bound: u64) -> usize
    requires { at + 256 ≤ length buf.old }
    ensures { Put buf.old at (pair_line bound (row_of first.now) (row_of second.now)) buf.new result × (result ≤ at + 256) }
{
    let numbers = [
        first.line,
        first.log,
        first.time,
        first.kind,
        first.node,
        second.line,
        second.log,
        second.time,
        second.kind,
        second.node,
    ];
    if may_precede(first.time, second.time, bound) {
        return any_text::put_line(buf, at, b"doubt", &numbers);
    }
    any_text::put_line(buf, at, b"against", &numbers)
}
