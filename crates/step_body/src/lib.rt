// A step on a body, a state without its history, done where it stands: whether it may be done, and what is left.
#![tactic(auto)]

ghost use Rattle.std.specs.Prelude.{◌≡◌, true, false, List, length, OnErr};
ghost use Rattle.rules.specs.State as S;
ghost use Rattle.rules.specs.Step.{kind_of, of_kind};
ghost use Rattle.step_parts.specs.Answers.{code_of};
ghost use Rattle.step_moves.specs.Bodies.{state_of, Ready, left_by, Leaves};
ghost use Rattle.step_moves.specs.Gets.{controller_of, stream_of};
ghost use Rattle.step_moves.specs.Sets.{with_board};
ghost use Rattle.step_asks.specs.Groups.{at_row, at_desk, runs_after};
ghost use Rattle.step_groups.specs.Asks.{BoardGoes};
ghost use Rattle.step_groups.specs.Called.{ask_of};
ghost use Rattle.step_groups.specs.Turns.{row_answer, board_after};

use step_asks::Ask;
use step_parts::{Kind, Refusal, Write};
use step_state::{Board, Body};

// Whether a step at a node and its stream may be done. The history holds `writes`.
fn check_at_row(body: &Body, writes: u16, ask: Ask) -> Result<(), Refusal>
    requires { Ready body.now × (ask ≡ ask_of body.now ask.kind ask.node) × (at_row ask ≡ true) }
    ensures { code_of result ≡ row_answer ask writes (controller_of body.now ask.node) (stream_of body.now ask.node) body.now.core.claims }
{
    let at = (ask.node - 1) as usize;
    step_groups::check_row(
        ask,
        writes,
        &body.core.controllers[at],
        &body.core.streams[at],
        &body.core.claims,
    )
}

// A step at a node and its stream. The history holds `writes`.
fn at_row(body: &mut Body, writes: u16, ask: Ask) -> Result<Option<Write>, Refusal>
    requires { Ready body.old × (ask ≡ ask_of body.old ask.kind ask.node) × (at_row ask ≡ true) }
    ensures leaves { (history : List S.Write) → length history ≡ writes → Leaves history (of_kind (kind_of ask.kind) ask.node (state_of body.old history)) (left_by body.new result) }
    ensures err { OnErr result (body.new ≡ body.old) }
{
    check_at_row(body, writes, ask)?;
    let at = (ask.node - 1) as usize;
    if ask.kind == Kind::Learn as u8 {
        body.core.controllers[at] = step_nodes::learn(body.core.controllers[at]);
        return Ok(None);
    }
    let row = step_groups::row_after(
        ask,
        body.core.controllers[at],
        body.core.streams[at],
        body.core.claims,
    );
    body.core.controllers[at].says = row.says;
    body.core.streams[at] = row.stream;
    body.core.claims = row.claims;
    Ok(row.accepted)
}

// A step of the service.
fn at_desk(body: &mut Body, ask: Ask) -> Result<Option<Write>, Refusal>
    requires { Ready body.old × (ask ≡ ask_of body.old ask.kind ask.node) × (at_desk ask ≡ true) }
    ensures leaves { (history : List S.Write) → Leaves history (of_kind (kind_of ask.kind) ask.node (state_of body.old history)) (left_by body.new result) }
    ensures err { OnErr result (body.new ≡ body.old) }
{
    step_groups::check_desk(ask, body.core.service, &body.core.controllers)?;
    let service = body.core.service;
    let next = step_groups::service_after(ask, service);
    body.core.service = next;
    if step_groups::posts(ask, service) {
        step_service::post(ask.count, &mut body.core.controllers, next);
    }
    Ok(None)
}

// What a step of the switch and all streams does. Apart from its check, since a function pays for its locals where it is entered, and most steps are refused;
// and Startup, which leaves the board as it is, copies none.
fn change_board(body: &mut Body, ask: Ask)
    requires { BoardGoes ask body.old.core.streams body.old.core.claims }
    ensures { body.new ≡ let next = board_after ask body.old.core.streams body.old.core.claims in with_board (runs_after ask) next.streams next.claims body.old }
{
    body.running = step_asks::runs_after(ask);
    if ask.kind == Kind::Startup as u8 {
        return;
    }
    // Out of the struct before they are stored: the check takes an array only from a variable.
    let Board { streams, claims } = step_groups::board_after(
        ask,
        body.core.streams,
        body.core.claims,
    );
    body.core.streams = streams;
    body.core.claims = claims;
}

// A step of the switch and all streams, or one that nothing calls for.
fn at_board(body: &mut Body, ask: Ask) -> Result<Option<Write>, Refusal>
    requires { Ready body.old × (ask ≡ ask_of body.old ask.kind ask.node) × (at_row ask ≡ false) × (at_desk ask ≡ false) }
    ensures leaves { (history : List S.Write) → Leaves history (of_kind (kind_of ask.kind) ask.node (state_of body.old history)) (left_by body.new result) }
    ensures err { OnErr result (body.new ≡ body.old) }
{
    step_groups::check_board(ask, &body.core.streams, &body.core.claims)?;
    change_board(body, ask);
    Ok(None)
}

// A step of a state in range, which it does not test: answers 0 and 2 to 7. The history holds `writes`. Gives the write that the step accepted, if it did;
// a refusal leaves the body as it was.
pub fn advance(body: &mut Body, writes: u16, kind: u8, node: u8) -> Result<Option<Write>, Refusal>
    requires { Ready body.old }
    ensures leaves { (history : List S.Write) → length history ≡ writes → Leaves history (of_kind (kind_of kind) node (state_of body.old history)) (left_by body.new result) }
    ensures err { OnErr result (body.new ≡ body.old) }
{
    let ask = Ask {
        count: body.count,
        running: body.running,
        kind,
        node,
    };
    if step_asks::at_row(ask) {
        return at_row(body, writes, ask);
    }
    if step_asks::at_desk(ask) {
        return at_desk(body, ask);
    }
    at_board(body, ask)
}
