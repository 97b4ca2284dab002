// One exchange of two records that are in doubt, where the clocks allow it, and what it does to the history.
#![tactic(auto)]

ghost use Rattle.std.specs.Prelude.{◌≡◌, ℕ, ◌+◌, ◌*◌, ◌≤◌, ◌<◌, length};
ghost use Rattle.any_list.specs.Arrays.{table};
ghost use Rattle.any_text.specs.Put.{Put};
ghost use Rattle.rules_laws.specs.All.{All};
ghost use Rattle.run.specs.Ran.{history_room};
ghost use Rattle.run_difference.specs.Runs.{Written};
ghost use Rattle.log_read.specs.Log.{row_of};
ghost use Rattle.log_records.specs.Rows.{rows_of, steps_of};
ghost use Rattle.log_exchange.specs.Exchange.{moved, may_pass, allowed, parting_of};
ghost use Rattle.run_lists.specs.Listed.{list_of};
ghost use Rattle.run_lists.specs.Made.{Small};
ghost use Rattle.log_exchange.specs.Filling.{step_at};
ghost use Rattle.log_exchange.specs.Ran.{AtHand};

use log_read::Record;
use log_records::Merge;
use run_difference::Parting;

// Of the records at places x and y, the second is moved up to the first, or the first down to the second.
#[derive(Clone, Copy)]
pub struct Exchange {
    // The rule `moved` takes a Bool.
    pub up: bool,
    pub x: usize,
    pub y: usize,
}

impl Exchange {
    // The record that stands at place i of the exchanged merge.
    fn source(self, i: usize) -> usize
        requires { i < 32768 }
        ensures { result ≡ moved self.up self.x self.y i }
    {
        let Exchange { up, x, y } = self;
        if i < x {
            i
        } else if up {
            if i == x {
                y
            } else if i <= y {
                i - 1
            } else {
                i
            }
        } else if i < y {
            i + 1
        } else if i == y {
            x
        } else {
            i
        }
    }
}

// The exchanged merge as an event list.
fn put_list(list: &mut [u8], merge: &Merge, exchange: Exchange) -> usize
    requires { (length merge.now.records.now ≤ 32762) × (2 * length merge.now.records.now + 12 ≤ length list.old)
        × ((i : ℕ) → i < length merge.now.records.now → moved exchange.up exchange.x exchange.y i < length merge.now.records.now) }
    ensures { Put list.old 0 (list_of merge.now.nodes (table (length merge.now.records.now) (step_at merge.now.records.now exchange.up exchange.x exchange.y))) list.new result
        × (result ≡ 2 * length merge.now.records.now + 12) }
{
    let records = merge.records;
    let mut at = 0;
    for i in 0..records.len() {
        let record = &records[exchange.source(i)];
        let bytes = [(record.kind % 256) as u8, (record.node % 256) as u8];
        at = any_text::put_word(list, at, &bytes);
    }
    let trailer = run_lists::trailer_bytes(records.len(), merge.nodes);
    any_text::put_word(list, at, &trailer)
}

// Runs it. Gives the number of writes.
fn run_moved(merge: &Merge, exchange: Exchange, out: &mut [u8]) -> u32
    requires { (length merge.now.records.now ≤ 32762) × (1 ≤ merge.now.nodes) × (merge.now.nodes ≤ 8)
        × ((i : ℕ) → i < length merge.now.records.now → moved exchange.up exchange.x exchange.y i < length merge.now.records.now)
        × (length merge.now.records.now + history_room ≤ length out.old) }
    ensures { Written (list_of merge.now.nodes (table (length merge.now.records.now) (step_at merge.now.records.now exchange.up exchange.x exchange.y))) (length merge.now.records.now) out.new result }
{
    let mut list = [0u8; run_lists::LONGEST];
    let length = put_list(&mut list, merge, exchange);
    run::run(&list[..length], out) - run::NO_WRITES
}

// Runs the merge at hand. Gives the number of writes, and leaves answers and history in the buffer. No record is moved by an exchange behind the last.
pub fn run_at_hand(merge: &Merge, out: &mut [u8]) -> u32
    requires { (length merge.now.records.now ≤ 32762) × (1 ≤ merge.now.nodes) × (merge.now.nodes ≤ 8) × (length merge.now.records.now + history_room ≤ length out.old) }
    ensures { AtHand merge.now.nodes merge.now.records.now out.new result }
{
    let behind = merge.records.len();
    let none = Exchange {
        up: true,
        x: behind,
        y: behind,
    };
    run_moved(merge, none, out)
}

// Where the histories of the merge at hand, which was run, and of the exchanged one first differ.
pub fn parting(merge: &Merge, exchange: Exchange, mine: &[u8], writes: u32) -> Option<Parting>
    requires { (length merge.now.records.now ≤ 32762) × (1 ≤ merge.now.nodes) × (merge.now.nodes ≤ 8) × (exchange.x < exchange.y) × (exchange.y < length merge.now.records.now)
        × All Small (steps_of (rows_of merge.now.records.now)) × AtHand merge.now.nodes merge.now.records.now mine.now writes }
    ensures { result ≡ parting_of merge.now.nodes (rows_of merge.now.records.now) exchange.up exchange.x exchange.y }
{
    let answers = merge.records.len();
    let mut theirs = [0u8; run::LONGEST_OUT];
    let others = run_moved(merge, exchange, &mut theirs);
    run_difference::difference(
        &mine[answers..],
        writes as usize,
        &theirs[answers..],
        others as usize,
    )
}

// ---- whether the clocks allow it

// Whether a record that is moved, upwards or downwards, may pass another.
fn passes(passing: &Record, passed: &Record, up: bool, bound: u64) -> bool
    ensures { result ≡ may_pass bound up (row_of passing.now) (row_of passed.now) }
{
    let (early, late) = if up {
        (passing, passed)
    } else {
        (passed, passing)
    };
    passed.log != passing.log && log_records::may_precede(early.time, late.time, bound)
}

// Whether the clocks allow the exchange.
pub fn allowed(merge: &Merge, exchange: Exchange) -> bool
    requires { (exchange.x < exchange.y) × (exchange.y < length merge.now.records.now) }
    ensures { result ≡ allowed merge.now.bound (rows_of merge.now.records.now) exchange.up exchange.x exchange.y }
{
    let Exchange { up, x, y } = exchange;
    let records = merge.records;
    let bound = merge.bound;
    if up {
        records[x..y]
            .iter()
            .all(|passed| passes(&records[y], passed, true, bound))
    } else {
        records[x + 1..y + 1]
            .iter()
            .all(|passed| passes(&records[x], passed, false, bound))
    }
}
