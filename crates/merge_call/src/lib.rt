// The verdict on two merges for a host: a number, and the places as bytes.
#![tactic(auto)]

ghost use Rattle.std.specs.Prelude.{◌≡◌, ◌+◌, ◌≤◌, length};
ghost use Rattle.std.proofs.lemmas.List.Edits.{sets};
ghost use Rattle.run_lists.specs.EventList.{over};
ghost use Rattle.merge_call.specs.Reply.{places_length, two_bytes, four_places, place_bytes, verdict_number, refusal_number, reply};

use merge_compare::{Refused, Verdict};
use step_parts::Refusal;

// The verdicts.
pub const SAME: u32 = 256;

pub const ORDER: u32 = 257;

pub const ONLY_FIRST: u32 = 258;

pub const ONLY_SECOND: u32 = 259;

// The refusals: those of the first list as they are, those of the second with this added, and lists of different node counts.
pub const OF_SECOND: u32 = 16;

pub const NODES_DIFFER: u32 = 28;

// How many bytes the places take.
pub const PLACES: usize = 8;

fn verdict_number(verdict: Verdict) -> u32
    ensures { result ≡ verdict_number verdict }
{
    match verdict {
        Verdict::Same => SAME,
        Verdict::Order { .. } => ORDER,
        Verdict::OnlyFirst(_) => ONLY_FIRST,
        Verdict::OnlySecond(_) => ONLY_SECOND,
    }
}

fn refusal_number(refused: Refused) -> u32
    ensures { result ≡ refusal_number refused }
{
    match refused {
        Refused::First(refusal) => refusal as u32,
        Refused::Second(refusal) => OF_SECOND + refusal as u32,
        Refused::NodesDiffer => NODES_DIFFER,
    }
}

// Two bytes, the least first.
fn put_place(places: &mut [u8], at: usize, place: u32)
    requires { at + 2 ≤ length places.old }
    ensures { places.new ≡ sets places.old at (two_bytes place) }
{
    let [low, high, _, _] = place.to_le_bytes();
    places[at] = low;
    places[at + 1] = high;
}

// Places p and q of the first list, r and s of the second.
fn put_four(places: &mut [u8], p: u32, q: u32, r: u32, s: u32)
    requires { places_length ≤ length places.old }
    ensures { places.new ≡ over (four_places p q r s) places.old }
{
    put_place(places, 0, p);
    put_place(places, 2, q);
    put_place(places, 4, r);
    put_place(places, 6, s);
}

// 0 where the verdict has no place.
fn put_places(places: &mut [u8], verdict: Verdict)
    requires { places_length ≤ length places.old }
    ensures { places.new ≡ over (place_bytes verdict) places.old }
{
    match verdict {
        Verdict::Same => put_four(places, 0, 0, 0, 0),
        Verdict::Order { p, q, r, s } => put_four(places, p, q, r, s),
        Verdict::OnlyFirst(p) => put_four(places, p, 0, 0, 0),
        Verdict::OnlySecond(s) => put_four(places, 0, 0, 0, s),
    }
}

// Compares two event lists as merges of the same logs. Returns the verdict, with the places at the front of the buffer and the bytes after them as they were;
// or the refusal, with every byte of the buffer as it was.
pub fn same_merge(first: &[u8], second: &[u8], places: &mut [u8]) -> u32
    ensures { (result ≡ (reply first.now second.now places.old).returned)
        × (places.new ≡ (reply first.now second.now places.old).places) }
{
    if places.len() < PLACES {
        return match run_lists::read_trailer(first) {
            Ok(_) => Refusal::OutTooShort as u32,
            Err(refusal) => refusal as u32,
        };
    }
    match merge_compare::compare(first, second) {
        Ok(verdict) => {
            put_places(places, verdict);
            verdict_number(verdict)
        }
        Err(refused) => refusal_number(refused),
    }
}
