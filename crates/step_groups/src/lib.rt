// What a step answers, and what it leaves, group by group and on no more than it concerns: kinds 3 to 8 and 11 a node and its stream, kinds 1 and 2
// the service and all nodes, kinds 9, 10, 12 and 13 the switch and all streams. A check only reads; what is left is asked for where it passes.
#![tactic(auto)]

ghost use Rattle.std.specs.Prelude.{◌≡◌, ◌≢◌, cond};
ghost use Rattle.rules.specs.Codes.{step_done, not_allowed};
ghost use Rattle.rules.specs.Rules.{learns};
ghost use Rattle.rules.specs.Step.{number_of};
ghost use Rattle.step_parts.specs.Answers.{code_of};
ghost use Rattle.step_state.specs.Order.{OrderedControllers};
ghost use Rattle.step_asks.specs.Groups.{existence};
ghost use Rattle.step_nodes.specs.Waiting.{Waits};
ghost use Rattle.step_switch_row.specs.Asks.{CanWrite};
ghost use Rattle.step_groups.specs.Turns.{row_answer, desk_answer, switch_answer, board_answer, quiet, flagged_row, written_row, row_after, service_after, posting, board_after};
ghost use Rattle.step_groups.specs.Asks.{RowAsks, BoardAsks, RowGoes, DeskGoes, BoardGoes};

use step_asks::Ask;
use step_parts::{Kind, Mastership, Refusal, Write};
use step_state::{Board, Claims, Controller, Stream};

// A kind as a pattern: the steps below are asked for by a number, which may be any.
const LEARN: u8 = Kind::Learn as u8;

const SEND_UPDATE: u8 = Kind::SendUpdate as u8;

const RECEIVE_UPDATE: u8 = Kind::ReceiveUpdate as u8;

const SEND_WRITE: u8 = Kind::SendWrite as u8;

const RECEIVE_WRITE: u8 = Kind::ReceiveWrite as u8;

const CONNECT: u8 = Kind::Connect as u8;

const CLOSE: u8 = Kind::Close as u8;

const HANDLE_UPDATE: u8 = Kind::HandleUpdate as u8;

const SHUTDOWN: u8 = Kind::Shutdown as u8;

// What a step at a row leaves of it, and the write that it accepted, if it did: all but Learn, which is the node's alone.
#[derive(Clone, Copy)]
pub struct Row {
    pub stream: Stream,
    pub says: bool,
    pub claims: Claims,
    pub accepted: Option<Write>,
}

// ---- whether a step may be done

fn check_allowed(allowed: bool) -> Result<(), Refusal>
    ensures { code_of result ≡ cond allowed step_done not_allowed }
{
    if !allowed {
        return Err(Refusal::NotAllowed);
    }
    Ok(())
}

// At a node and its stream. The history holds `writes`. The rows stay parameters of their own, here and below: a struct of them would be put together for
// each refused step too.
pub fn check_row(
    ask: Ask,
    writes: u16,
    controller: &Controller,
    stream: &Stream,
    claims: &Claims,
) -> Result<(), Refusal>
    requires { RowAsks ask controller.now stream.now }
    ensures { code_of result ≡ row_answer ask writes controller.now stream.now claims.now }
{
    match ask.kind {
        LEARN => check_allowed(step_nodes::may_learn(controller)),
        SEND_UPDATE => step_nodes::check_send(
            step_nodes::may_send_update(ask.count, ask.node, controller, stream),
            stream,
        ),
        RECEIVE_UPDATE => check_allowed(step_nodes::may_receive_update(stream)),
        SEND_WRITE => step_nodes::check_send(
            step_nodes::may_send_write(ask.count, ask.node, controller, stream),
            stream,
        ),
        RECEIVE_WRITE => check_allowed(step_nodes::may_receive_write(stream)),
        CONNECT => step_switch_row::check_connect(ask.running, stream),
        _ => step_switch_row::check_handle_write(ask.node, ask.running, stream, claims, writes),
    }
}

// Of the service.
pub fn check_desk(
    ask: Ask,
    service: Mastership,
    controllers: &[Controller; 8],
) -> Result<(), Refusal>
    requires { OrderedControllers ask.count controllers.now }
    ensures { code_of result ≡ desk_answer ask service controllers.now }
{
    if ask.kind == Kind::Join as u8 {
        return step_service::check_join(ask.count, ask.node, service, controllers);
    }
    step_service::check_leave(ask.count, ask.node, service, controllers)
}

fn check_switch(ask: Ask, streams: &[Stream; 8], claims: &Claims) -> Result<(), Refusal>
    requires { BoardAsks ask streams.now claims.now × (existence ask ≡ step_done) }
    ensures { code_of result ≡ switch_answer ask streams.now claims.now }
{
    match ask.kind {
        CLOSE => step_switch::check_close(ask.count, ask.node, streams, claims),
        HANDLE_UPDATE => step_switch::check_handle_update(
            ask.count,
            ask.node,
            ask.running,
            streams,
            claims,
        ),
        SHUTDOWN => check_allowed(ask.running),
        _ => check_allowed(!ask.running),
    }
}

// Of the switch and all streams; and of a kind that does not exist, or does not call for the node.
pub fn check_board(ask: Ask, streams: &[Stream; 8], claims: &Claims) -> Result<(), Refusal>
    requires { BoardAsks ask streams.now claims.now }
    ensures { code_of result ≡ board_answer ask streams.now claims.now }
{
    step_asks::check_exists(ask)?;
    check_switch(ask, streams, claims)
}

// ---- what is left

// The stream alone has changed.
fn quiet(controller: Controller, claims: Claims, stream: Stream) -> Row
    ensures { result ≡ quiet controller claims stream }
{
    Row {
        stream,
        says: controller.says,
        claims,
        accepted: None,
    }
}

// Receive update: the flag too.
fn flagged(ask: Ask, controller: Controller, stream: Stream, claims: Claims) -> Row
    requires { Waits stream }
    ensures { result ≡ flagged_row ask controller stream claims }
{
    Row {
        says: step_nodes::confirmed(ask.count, ask.node, controller, stream),
        ..quiet(controller, claims, step_nodes::receive(stream))
    }
}

// Handle write: the last accepted term, and the write.
fn written(ask: Ask, controller: Controller, stream: Stream, claims: Claims) -> Row
    requires { CanWrite ask.node stream claims }
    ensures { result ≡ written_row ask controller stream claims }
{
    let handled = step_switch_row::handle_write(ask.node, stream, claims);
    Row {
        stream: handled.stream,
        says: controller.says,
        claims: Claims {
            last: handled.last,
            ..claims
        },
        accepted: handled.accepted,
    }
}

// Of a node and its stream, by every kind but Learn.
pub fn row_after(ask: Ask, controller: Controller, stream: Stream, claims: Claims) -> Row
    requires { RowGoes ask controller stream claims × (ask.kind ≢ number_of learns) }
    ensures { result ≡ row_after ask controller stream claims }
{
    match ask.kind {
        SEND_UPDATE => quiet(
            controller,
            claims,
            step_nodes::send_update(ask.count, ask.node, controller, stream),
        ),
        RECEIVE_UPDATE => flagged(ask, controller, stream, claims),
        SEND_WRITE => quiet(
            controller,
            claims,
            step_nodes::send_write(ask.count, ask.node, controller, stream),
        ),
        RECEIVE_WRITE => quiet(controller, claims, step_nodes::receive(stream)),
        CONNECT => quiet(controller, claims, step_switch_row::connect(stream)),
        _ => written(ask, controller, stream, claims),
    }
}

// Of the service.
pub fn service_after(ask: Ask, service: Mastership) -> Mastership
    requires { DeskGoes ask service }
    ensures { result ≡ service_after ask service }
{
    if ask.kind == Kind::Join as u8 {
        return step_service::joined(service, ask.node);
    }
    step_service::left(service, ask.node)
}

// Whether the nodes hear of it.
pub fn posts(ask: Ask, service: Mastership) -> bool
    ensures { result ≡ posting ask service }
{
    if ask.kind == Kind::Join as u8 {
        return true;
    }
    step_service::hands_over(service, ask.node)
}

// Of the streams and what the switch holds.
pub fn board_after(ask: Ask, streams: [Stream; 8], claims: Claims) -> Board
    requires { BoardGoes ask streams claims }
    ensures { result ≡ board_after ask streams claims }
{
    match ask.kind {
        CLOSE => step_switch::close(ask.count, ask.node, streams, claims),
        HANDLE_UPDATE => step_switch::handle_update(ask.count, ask.node, streams, claims),
        SHUTDOWN => step_state::blank_board(claims.last),
        _ => Board { streams, claims },
    }
}
