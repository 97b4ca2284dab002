// The switch's steps at one stream: Connect and Handle write, kinds 8 and 11. A step is two functions: one only reads and says whether it may be done, the
// other does it.
#![tactic(auto)]

ghost use Rattle.std.specs.Prelude.{◌≡◌, true, ◌≤◌, leb};
ghost use Rattle.rules.specs.Limits.{most_nodes};
ghost use Rattle.rules.specs.Part.{decide};
ghost use Rattle.rules.specs.Rules.{connect_rule, handle_write_rule};
ghost use Rattle.step_parts.specs.Answers.{code_of};
ghost use Rattle.step_parts.specs.declared.Message.TheVariants as M;
ghost use Rattle.step_state.specs.Reads.{answer_of, linked_of, served_of};
ghost use Rattle.step_state.specs.Stores.{store_open};
ghost use Rattle.step_switch_row.specs.Asks.{AtStream, WriteAt, CanWrite};
ghost use Rattle.step_switch_row.specs.Does.{judged};
ghost use Rattle.step_switch_row.specs.Handled.{store_handled};

use step_parts::{ElectionId, Message, Refusal, Response, Status, Term, Write};
use step_state::{Claims, Stream};

// 8 Connect: whether it may be done, or why not.
pub fn check_connect(running: bool, stream: &Stream) -> Result<(), Refusal>
    ensures { code_of result ≡ answer_of (decide connect_rule (linked_of running stream.now)) }
{
    if !running || stream.opened {
        return Err(Refusal::NotAllowed);
    }
    Ok(())
}

// 8 Connect: the stream is opened.
pub fn connect(stream: Stream) -> Stream
    ensures { result ≡ store_open true stream }
{
    let mut next = stream;
    next.opened = true;
    next
}

// A write that was handled: the stream, the last accepted term, and the write, if it was accepted.
#[derive(Clone, Copy)]
pub struct Handled {
    pub stream: Stream,
    pub last: Term,
    pub accepted: Option<Write>,
}

// Whether a term is at least the last accepted one.
fn is_current(last: Term, term: Term) -> bool
    ensures { result ≡ leb last.0 term.0 }
{
    last.0 <= term.0
}

// Whether the switch accepts a write with this id from the node.
fn accepts(node: u8, id: ElectionId, claims: &Claims) -> bool
    requires { (1 ≤ node) × (node ≤ most_nodes) }
    ensures { result ≡ judged node id.0 claims.now }
{
    let at = (node - 1) as usize;
    let ids = claims.ids;
    let own = ids[at];
    if own.0 == id.0 {
        if claims.elected.master == node {
            let terms = claims.terms;
            let term = terms[at];
            let last = claims.last;
            return is_current(last, term);
        }
    }
    false
}

// What a write is answered.
fn written(status: Status) -> Response
    ensures { result ≡ record { message = M.Write; status = status; id = record { 0 = 0 } } }
{
    Response {
        message: Message::Write,
        status: status,
        id: ElectionId(0),
    }
}

// Whether the write at the head of the stream's requests may be handled, or why not.
fn check_write(node: u8, stream: &Stream, claims: &Claims, writes: u16) -> Result<(), Refusal>
    requires { WriteAt node stream.now claims.now }
    ensures { code_of result ≡ answer_of (decide (handle_write_rule node) (served_of node true stream.now claims.now writes)) }
{
    let request = step_streams::head(*stream);
    if accepts(node, request.id, claims) && step_parts::HISTORY_LENGTH <= writes {
        return Err(Refusal::HistoryFull);
    }
    if stream.responses.full() {
        return Err(Refusal::QueueFull);
    }
    Ok(())
}

// 11 Handle write: whether it may be done, or why not. The history holds `writes`.
pub fn check_handle_write(
    node: u8,
    running: bool,
    stream: &Stream,
    claims: &Claims,
    writes: u16,
) -> Result<(), Refusal>
    requires { AtStream node stream.now }
    ensures { code_of result ≡ answer_of (decide (handle_write_rule node) (served_of node running stream.now claims.now writes)) }
{
    match step_streams::waits(running, *stream) {
        Message::Write => check_write(node, stream, claims, writes),
        _ => Err(Refusal::NotAllowed),
    }
}

// 11 Handle write: the request is taken off and answered.
pub fn handle_write(node: u8, stream: Stream, claims: Claims) -> Handled
    requires { CanWrite node stream claims }
    ensures { result ≡ store_handled ((handle_write_rule node).effect (served_of node true stream claims 0)) stream }
{
    let request = step_streams::head(stream);
    let row = step_streams::without_head(stream);
    if accepts(node, request.id, &claims) {
        return Handled {
            stream: step_streams::respond(row, written(Status::Ok)),
            last: claims.terms[(node - 1) as usize],
            accepted: Some(Write {
                node,
                term: request.term,
            }),
        };
    }
    Handled {
        stream: step_streams::respond(row, written(Status::PermissionDenied)),
        last: claims.last,
        accepted: None,
    }
}
