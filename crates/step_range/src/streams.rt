// The rows of the streams, with what the switch holds of their nodes.
#![tactic(auto, using(std::proofs::lemmas::Bool::Decides::nat_tests), unfolding(rules::specs::Election::elected, step_range_queues::specs::Tests::requests_test, step_range_queues::specs::Tests::responses_test, crate::specs::Tests::shut_test, crate::specs::Tests::queues_test, crate::specs::Tests::stream_test, crate::specs::Tests::id_test, crate::specs::Tests::held_test))]

ghost use Rattle.std.specs.Prelude.{◌≡◌, ◌≤◌};
ghost use Rattle.rules.specs.Limits.{most_nodes};
ghost use Rattle.step_range.specs.Tests.{shut_test, stream_test, streams_test, ids_test, held_test};

use step_parts::{ElectionId, Term};
use step_range_queues::queues::queue_fits;
use step_state::{Claims, Core, Stream};

// What a closed stream has, and what the switch holds of its node: nothing.
fn is_shut(row: Stream, id: ElectionId, term: Term) -> bool
    ensures { result ≡ shut_test row id.0 term.0 }
{
    row.sent.0 == 0 && row.requests.len == 0 && row.responses.len == 0 && id.0 == 0 && term.0 == 0
}

// A row for a stream, with what the switch holds of its node. An open one has a running switch.
fn stream_fits(running: bool, row: Stream, id: ElectionId, term: Term) -> bool
    ensures { result ≡ stream_test running row id.0 term.0 }
{
    if step_parts::TOP_TERM < row.sent.0
        || step_parts::TOP_ID < id.0
        || step_parts::TOP_TERM < term.0
    {
        return false;
    }
    // What a request or a response says does not depend on the number of nodes.
    if !(queue_fits(0, row.requests) && queue_fits(0, row.responses)) {
        return false;
    }
    if row.opened {
        running
    } else {
        is_shut(row, id, term)
    }
}

// A row above N is one of a switch that does not run: closed, and with nothing.
pub fn streams_fit(count: u8, running: bool, core: Core) -> bool
    ensures { result ≡ streams_test count running core.streams core.claims }
{
    for (i, row) in core.streams.iter().enumerate() {
        let id = core.claims.ids[i];
        let term = core.claims.terms[i];
        if !stream_fits((i < count as usize) & running, *row, id, term) {
            return false;
        }
    }
    true
}

// Ids above 0 are distinct: each stands at its first place.
fn ids_fit(count: u8, claims: Claims) -> bool
    requires { count ≤ most_nodes }
    ensures { result ≡ ids_test count claims }
{
    for (i, id) in claims.ids[..count as usize].iter().enumerate() {
        if id.0 != 0 && step_state::id_place(count, *id, claims.ids) as usize != i {
            return false;
        }
    }
    true
}

// What is kept with the ids is what one pass over them finds, and they are distinct.
pub fn held_fits(count: u8, claims: Claims) -> bool
    requires { count ≤ most_nodes }
    ensures { result ≡ held_test count claims }
{
    claims.elected == step_state::elect(count, claims.ids) && ids_fit(count, claims)
}
