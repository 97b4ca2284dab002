// Taking the records of one list out of another: the places of the other list's records stand in a row, of which those from some place of the row on are left.
#![tactic(auto)]

ghost use Rattle.std.specs.Prelude.{◌≡◌, ◌≤◌, ◌<◌, length};
ghost use Rattle.run_lists.specs.EventList.{record_at, record_count};
ghost use Rattle.run_lists.specs.Reads.{event_of};
ghost use Rattle.merge_verdict.specs.Verdict.{same_event};
ghost use Rattle.merge_letters.specs.Letters.{table_size};
ghost use Rattle.any_search.specs.Places.{from};
ghost use Rattle.merge_places.specs.Row.{Placed, Moved, Finds, is_stop, is_there};
ghost use Rattle.merge_places.specs.Filling.{Lettered};

use run_lists::{EventList, Record};

// ---- searches, each for the first from a start on

// A record that a step with this letter may not pass. Never inlined: put into its caller's loop, the scan took 0.28 s in place of 0.19 s in the worst case.
#[inline(never)]
pub fn next_stop(
    letters: &[u8],
    places: &[u16],
    table: &[u8],
    letter: u8,
    start: usize,
) -> Option<usize>
    requires { (length table.now ≡ table_size) × (letter < 126) × Placed places.now (length letters.now) × (start ≤ length places.now) }
    ensures { Finds (is_stop letters.now table.now letter places.now) start (length places.now) result }
{
    let row = 256 * (letter as usize);
    for i in start..places.len() {
        let place = places[i] as usize;
        if table[row + letters[place] as usize] != 1 {
            return Some(i);
        }
    }
    None
}

// This record, in the row of the second list's places.
pub fn find_left(places: &[u16], second: EventList, start: usize, event: Record) -> Option<usize>
    requires { Placed places.now second.trailer.records × (start ≤ second.trailer.records) }
    ensures { Finds (is_there second.entry.bytes.now (event_of event) places.now) start (length places.now) result }
{
    for i in start..places.len() {
        if second.record(places[i] as usize) == event {
            return Some(i);
        }
    }
    None
}

// This record, in the first list.
pub fn find_record(first: EventList, start: usize, event: Record) -> Option<usize>
    requires { start ≤ first.trailer.records }
    ensures { Finds (λ a. same_event (record_at first.entry.bytes.now a) (event_of event)) start first.entry.trailer.records result }
{
    for i in start..first.trailer.records {
        if first.record(i) == event {
            return Some(i);
        }
    }
    None
}

// The letters of the second list. (Those of a log are filled in `log_doubts`, from records of another type.)
pub fn fill_letters(second: EventList, letters: &mut [u8])
    requires { length letters.old ≡ second.trailer.records }
    ensures { Lettered second.entry.bytes.now letters.new (record_count second.entry.bytes.now) }
{
    for (i, letter) in letters.iter_mut().enumerate() {
        let record = second.record(i);
        *letter = merge_letters::letter(record.kind, record.node);
    }
}

// ---- the row of places

// All places, in turn.
pub fn fill_places(places: &mut [u16])
    requires { length places.old < 65536 }
    ensures { places.new ≡ from 0 (length places.old) }
{
    for (i, place) in places.iter_mut().enumerate() {
        *place = i as u16;
    }
}

// Takes out what stands at `at`: what stands before it, from `start` on, moves up. By hand: with `copy_within` the comparison of two lists took nearly twice as long.
pub fn take(places: &mut [u16], start: usize, at: usize)
    requires { (start ≤ at) × (at < length places.old) }
    ensures { Moved start at places.old places.new }
{
    let mut i = at;
    while start < i {
        places[i] = places[i - 1];
        i -= 1;
    }
}
