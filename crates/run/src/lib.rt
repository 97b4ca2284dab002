// Running an event list: an answer for each record into the lent buffer, and the history behind the answers.
#![tactic(auto)]

ghost use Rattle.std.specs.Prelude.{◌≡◌, OnSome, ◌++◌, ◌+◌, ◌*◌, ◌≤◌, ◌<◌, length};
ghost use Rattle.std.proofs.lemmas.List.Edits.{sets};
ghost use Rattle.rules.specs.Limits.{history_length};
ghost use Rattle.rules.specs.Step.{fresh};
ghost use Rattle.step_state.specs.Stores.{hold_accepted};
ghost use Rattle.step_moves.specs.Bodies.{body_of};
ghost use Rattle.run_lists.specs.EventList.{history_bytes, over};
ghost use Rattle.run.specs.Ran.{history_room, whole_run, ran};
ghost use Rattle.run.specs.Running.{Runs};

use run_lists::Trailer;
use step_parts::{Refusal, Write};
use step_state::Body;

// The bytes behind the answers: room for a full history.
const HISTORY_ROOM: usize = 4096;

// Room for the answers to 32,762 records, and for a full history.
pub const LONGEST_OUT: usize = 36858;

// What is returned for a run without writes.
pub const NO_WRITES: u32 = 256;

// The fresh state, without its history.
fn fresh_body(nodes: u8) -> Body
    ensures { result ≡ body_of (fresh nodes) }
{
    Body {
        count: nodes,
        running: true,
        core: step_state::blank_core(),
    }
}

// The write of a step joins the history, if it accepted one, behind so many answers. Gives the number of writes.
fn keep(out: &mut [u8], answers: usize, writes: u16, accepted: Option<Write>) -> u16
    requires { (answers + history_room ≤ length out.old) × OnSome accepted (writes < history_length) }
    ensures { (result ≡ writes + length (hold_accepted accepted))
        × (out.new ≡ sets out.old (answers + 4 * writes) (history_bytes (hold_accepted accepted))) }
{
    match accepted {
        Some(write) => {
            run_lists::write_entry(out, answers, writes as usize, write.node, write.term);
            writes + 1
        },
        None => writes,
    }
}

// Runs all records. Gives the number of writes. The state stays in one local, which every step is lent and changes where it stands.
fn run_records(list: &[u8], trailer: Trailer, out: &mut [u8]) -> u16
    requires { Runs list.now trailer (length out.old) }
    ensures { (result ≡ length (whole_run list.now).state.history)
        × (out.new ≡ over ((whole_run list.now).answer ++ history_bytes (whole_run list.now).state.history) out.old) }
{
    let mut body = fresh_body(trailer.nodes);
    let mut writes: u16 = 0;
    for i in 0..trailer.records {
        let event = run_lists::read_record(list, trailer.first, i);
        match step_body::advance(&mut body, writes, event.kind, event.node) {
            Ok(accepted) => {
                out[i] = step_parts::code(Ok(()));
                writes = keep(&mut *out, trailer.records, writes, accepted);
            },
            Err(refusal) => {
                out[i] = step_parts::code(Err(refusal));
            },
        }
    }
    writes
}

// Runs a list from a fresh state: an answer for each record, the history behind the answers, and the bytes after it stay.
// Returns 256 plus the number of writes. A refused list returns why, and leaves every byte of the buffer.
pub fn run(list: &[u8], out: &mut [u8]) -> u32
    ensures { (result ≡ (ran list.now out.old).returned)
        × (out.new ≡ (ran list.now out.old).out) }
{
    let trailer = match run_lists::read_trailer(list) {
        Ok(trailer) => trailer,
        Err(refusal) => return refusal as u32,
    };
    if out.len() < trailer.records + HISTORY_ROOM {
        return Refusal::OutTooShort as u32;
    }
    let writes = run_records(list, trailer, out);
    NO_WRITES + writes as u32
}
