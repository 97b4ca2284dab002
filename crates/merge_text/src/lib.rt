// What the program `compare` prints for two event lists, as one text in a lent buffer.
#![tactic(auto)]

ghost use Rattle.std.specs.Prelude.{◌++◌, ◌+◌, ◌≤◌, length};
ghost use Rattle.run.specs.Ran.{history_room};
ghost use Rattle.merge_compare.specs.Compared.{comparison};
ghost use Rattle.any_text.specs.Put.{Put};
ghost use Rattle.merge_text.specs.Report.{longest, verdict_line, parting_line, runs_text, report};
ghost use Rattle.run_difference.specs.Runs.{Written};

use merge_compare::Verdict;
use run_difference::Parting;
use run_lists::EventList;
use step_parts::{Term, Write};

// Room for the longest text: a line of 96 bytes and two that have 192 together.
pub const LONGEST_REPORT: usize = 288;

// Printed for an entry that a history does not have.
const MISSING: Write = Write {
    node: 0,
    term: Term(0),
};

// The line of the verdict.
fn put_verdict(buf: &mut [u8], at: usize, verdict: Verdict) -> usize
    requires { at + 96 ≤ length buf.old }
    ensures { Put buf.old at (verdict_line verdict) buf.new result × (result ≤ at + 96) }
{
    match verdict {
        Verdict::Same => any_text::put_word(buf, at, b"same\n"),
        Verdict::Order { p, q, r, s } => {
            let places = [p as u64, q as u64, r as u64, s as u64];
            any_text::put_line(buf, at, b"order", &places)
        }
        Verdict::OnlyFirst(p) => any_text::put_line(buf, at, b"only first", &[p as u64]),
        Verdict::OnlySecond(s) => any_text::put_line(buf, at, b"only second", &[s as u64]),
    }
}

// The line of the first entry in which two histories differ.
pub fn put_parting(buf: &mut [u8], at: usize, parting: Option<Parting>) -> usize
    requires { at + 128 ≤ length buf.old }
    ensures { Put buf.old at (parting_line parting) buf.new result × (result ≤ at + 128) }
{
    let Some(parting) = parting else {
        return any_text::put_word(buf, at, b"agrees\n");
    };
    let one = parting.one.unwrap_or(MISSING);
    let other = parting.other.unwrap_or(MISSING);
    let entry = [
        parting.at as u64,
        one.node as u64,
        one.term.0 as u64,
        other.node as u64,
        other.term.0 as u64,
    ];
    any_text::put_line(buf, at, b"differs", &entry)
}

// Runs a list that is not refused. Gives the number of writes.
fn run_good(list: EventList, out: &mut [u8]) -> u32
    requires { list.trailer.records + history_room ≤ length out.old }
    ensures { Written list.entry.bytes.now list.entry.trailer.records out.new result }
{
    run::run(list.bytes, out) - run::NO_WRITES
}

// Runs both lists, and says how many writes each accepts and where they first differ. The buffers are for the answers and the histories.
fn put_runs(
    buf: &mut [u8],
    at: usize,
    first: EventList,
    second: EventList,
    mine: &mut [u8],
    theirs: &mut [u8],
) -> usize
    requires { (first.trailer.records + history_room ≤ length mine.old) × (second.trailer.records + history_room ≤ length theirs.old)
        × (at + 192 ≤ length buf.old) }
    ensures { Put buf.old at (runs_text first.entry.bytes.now second.entry.bytes.now) buf.new result × (result ≤ at + 192) }
{
    let writes = run_good(first, mine);
    let others = run_good(second, theirs);
    let numbers = [writes as u64, others as u64];
    let next = any_text::put_line(buf, at, b"writes", &numbers);
    let parting = run_difference::difference(
        &mine[first.trailer.records..],
        writes as usize,
        &theirs[second.trailer.records..],
        others as usize,
    );
    put_parting(buf, next, parting)
}

// Two lists that are not refused, by the node count of the first.
fn put_comparison(buf: &mut [u8], first: EventList, second: EventList) -> usize
    requires { longest ≤ length buf.old }
    ensures { Put buf.old 0 (verdict_line (comparison first.entry.bytes.now second.entry.bytes.now) ++ runs_text first.entry.bytes.now second.entry.bytes.now)
        buf.new result × (result ≤ longest) }
{
    let next = put_verdict(buf, 0, merge_compare::compare_lists(first, second));
    let mut mine = [0u8; run::LONGEST_OUT];
    let mut theirs = [0u8; run::LONGEST_OUT];
    put_runs(buf, next, first, second, &mut mine, &mut theirs)
}

// Compares two event lists and runs both, and puts what the program prints at the front of the buffer. Returns how many bytes that is.
pub fn report(first: &[u8], second: &[u8], buf: &mut [u8; LONGEST_REPORT]) -> usize
    ensures { Put buf.old 0 (report first.now second.now) buf.new result × (result ≤ length buf.new) }
{
    let one = match EventList::read(first) {
        Ok(list) => list,
        Err(refusal) => return any_text::put_line(buf, 0, b"refused first", &[refusal as u64]),
    };
    let other = match EventList::read(second) {
        Ok(list) => list,
        Err(refusal) => return any_text::put_line(buf, 0, b"refused second", &[refusal as u64]),
    };
    if one.trailer.nodes != other.trailer.nodes {
        let nodes = [one.trailer.nodes as u64, other.trailer.nodes as u64];
        return any_text::put_line(buf, 0, b"refused nodes", &nodes);
    }
    put_comparison(buf, one, other)
}
