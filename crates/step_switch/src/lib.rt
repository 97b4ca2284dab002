// The switch's steps that concern all streams: kinds 9 and 10.
// A step is two functions: one only reads and says whether it may be done, the other does it.
#![tactic(auto)]

ghost use Rattle.std.specs.Prelude.{◌≡◌, true};
ghost use Rattle.rules.specs.Part.{decide};
ghost use Rattle.rules.specs.Rules as R;
ghost use Rattle.rules.specs.Rules.{close_rule, close_room, handle_update_rule, update_room};
ghost use Rattle.step_parts.specs.Answers.{code_of};
ghost use Rattle.step_state.specs.Reads.{answer_of, told_of};
ghost use Rattle.step_state.specs.Stores.{store_telling};
ghost use Rattle.step_switch.specs.Asks.{AtClaims, AtBoard, Tells, UpdateAt, CanUpdate};
ghost use Rattle.step_switch.specs.Does.{with_claim, cleared_at, collides};

use step_parts::{ElectionId, Message, Refusal, Term};
use step_state::{Board, Claims, Stream};

// The switch holds this id and this term for the node, and elects anew: the one way to change an id.
fn with_claim(count: u8, node: u8, id: ElectionId, term: Term, claims: Claims) -> Claims
    requires { AtClaims count node claims }
    ensures { result ≡ with_claim count node id term claims }
{
    let at = (node - 1) as usize;
    let ids = claims.ids;
    let now = claims.elected;
    let mut next = claims;
    next.ids[at] = id;
    next.terms[at] = term;
    next.elected = step_streams::elected_with(count, node, id, ids, now);
    next
}

// The node's stream is closed, and what the switch holds of it cleared. Nobody is told.
fn cleared_at(count: u8, node: u8, streams: [Stream; 8], claims: Claims) -> Board
    requires { AtClaims count node claims }
    ensures { result ≡ cleared_at count node streams claims }
{
    let at = (node - 1) as usize;
    let mut next = streams;
    next[at] = step_state::closed_stream();
    let cleared = with_claim(count, node, ElectionId(0), Term(0), claims);
    Board {
        streams: next,
        claims: cleared,
    }
}

// Whether all streams that closing the node's would tell have room. They are told where it is the master's.
fn close_room(count: u8, node: u8, streams: &[Stream; 8], claims: &Claims) -> bool
    requires { AtBoard count node streams.now claims.now }
    ensures { result ≡ close_room node (told_of count node true streams.now claims.now) }
{
    if claims.elected.master == node {
        let at = (node - 1) as usize;
        let mut others = *streams;
        others[at] = step_state::closed_stream();
        return step_streams::tell_room(count, &others);
    }
    true
}

// 9 Close: whether it may be done, or why not.
pub fn check_close(
    count: u8,
    node: u8,
    streams: &[Stream; 8],
    claims: &Claims,
) -> Result<(), Refusal>
    requires { AtBoard count node streams.now claims.now }
    ensures { code_of result ≡ answer_of (decide (close_rule node) (told_of count node true streams.now claims.now)) }
{
    let at = (node - 1) as usize;
    let stream = streams[at];
    if !stream.opened {
        return Err(Refusal::NotAllowed);
    }
    if !close_room(count, node, streams, claims) {
        return Err(Refusal::QueueFull);
    }
    Ok(())
}

// 9 Close: the stream is closed, and where it was the master's, every stream still open is told.
pub fn close(count: u8, node: u8, streams: [Stream; 8], claims: Claims) -> Board
    requires { Tells close_rule count node streams claims }
    ensures { result ≡ store_telling node ((close_rule node).effect (told_of count node true streams claims)) count streams claims }
{
    let mut left = cleared_at(count, node, streams, claims);
    if claims.elected.master == node {
        step_streams::tell_all(count, left.claims.elected, &mut left.streams);
    }
    left
}

// Whether all streams that taking the update at the head of the node's requests would tell have room.
fn update_room(count: u8, node: u8, streams: &[Stream; 8], claims: &Claims) -> bool
    requires { UpdateAt count node streams.now claims.now }
    ensures { result ≡ update_room node (told_of count node true streams.now claims.now) }
{
    let at = (node - 1) as usize;
    let stream = streams[at];
    let request = step_streams::head(stream);
    let id = request.id;
    let ids = claims.ids;
    let now = claims.elected;
    let next = step_streams::elected_with(count, node, id, ids, now);
    if now.master != next.master {
        return step_streams::tell_room(count, streams);
    }
    if stream.responses.full() {
        return false;
    }
    true
}

// Whether another node holds the id of the update at the head of the node's requests.
fn is_collision(count: u8, node: u8, streams: &[Stream; 8], claims: &Claims) -> bool
    requires { UpdateAt count node streams.now claims.now }
    ensures { result ≡ collides node (told_of count node true streams.now claims.now) }
{
    let at = (node - 1) as usize;
    let stream = streams[at];
    let request = step_streams::head(stream);
    let id = request.id;
    let ids = claims.ids;
    step_streams::is_taken(count, node, id, ids)
}

// Whether all streams that handling the update would tell have room: a collision closes the stream.
fn update_fits(count: u8, node: u8, streams: &[Stream; 8], claims: &Claims) -> bool
    requires { UpdateAt count node streams.now claims.now }
    ensures { result ≡ (handle_update_rule node).queues_left (told_of count node true streams.now claims.now) }
{
    if is_collision(count, node, streams, claims) {
        return close_room(count, node, streams, claims);
    }
    update_room(count, node, streams, claims)
}

// 10 Handle update: whether it may be done, or why not.
pub fn check_handle_update(
    count: u8,
    node: u8,
    running: bool,
    streams: &[Stream; 8],
    claims: &Claims,
) -> Result<(), Refusal>
    requires { AtBoard count node streams.now claims.now }
    ensures { code_of result ≡ answer_of (decide (handle_update_rule node) (told_of count node running streams.now claims.now)) }
{
    let at = (node - 1) as usize;
    let stream = streams[at];
    let Message::Update = step_streams::waits(running, stream) else {
        return Err(Refusal::NotAllowed);
    };
    if !update_fits(count, node, streams, claims) {
        return Err(Refusal::QueueFull);
    }
    Ok(())
}

// The update at the head of the node's requests is taken off, and its id and term become the node's.
// Where the switch's master changes, every open stream is told, and else the node's alone.
fn updated(count: u8, node: u8, streams: [Stream; 8], claims: Claims) -> Board
    requires { CanUpdate count node streams claims }
    ensures { result ≡ store_telling node (R.updated node (told_of count node true streams claims)) count streams claims }
{
    let at = (node - 1) as usize;
    let stream = streams[at];
    let request = step_streams::head(stream);
    let id = request.id;
    let term = request.term;
    let held = with_claim(count, node, id, term, claims);
    let now = claims.elected;
    let elected = held.elected;
    let row = step_streams::without_head(stream);
    let mut next = streams;
    if now.master != elected.master {
        next[at] = row;
        step_streams::tell_all(count, elected, &mut next);
    } else {
        next[at] = step_streams::tell_one(node, elected, row);
    }
    Board {
        streams: next,
        claims: held,
    }
}

// 10 Handle update: a collision closes the stream, and any other update is taken.
pub fn handle_update(count: u8, node: u8, streams: [Stream; 8], claims: Claims) -> Board
    requires { Tells handle_update_rule count node streams claims }
    ensures { result ≡ store_telling node ((handle_update_rule node).effect (told_of count node true streams claims)) count streams claims }
{
    if is_collision(count, node, &streams, &claims) {
        return close(count, node, streams, claims);
    }
    updated(count, node, streams, claims)
}
