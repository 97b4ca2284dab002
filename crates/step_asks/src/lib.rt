// A step that is asked for: which part of the state it concerns, whether it exists, and whether the switch runs after it.
#![tactic(auto)]

ghost use Rattle.std.specs.Prelude.{◌≡◌};
ghost use Rattle.step_parts.specs.Answers.{code_of};
ghost use Rattle.step_asks.specs.Groups.{row_kind, desk_kind, at_row, at_desk, existence, runs_after};

use step_parts::{Kind, Refusal};

// A step that is asked for, with the node count and whether the switch runs.
// The kind is any byte: `existence` answers for those too that no kind has, and so does `step`.
#[derive(Clone, Copy)]
pub struct Ask {
    pub count: u8,
    pub running: bool,
    pub kind: u8,
    pub node: u8,
}

fn is_row_kind(kind: u8) -> bool
    ensures { result ≡ row_kind kind }
{
    match Kind::try_from(kind) {
        Ok(kind) => matches!(
            kind,
            Kind::Learn
                | Kind::SendUpdate
                | Kind::ReceiveUpdate
                | Kind::SendWrite
                | Kind::ReceiveWrite
                | Kind::Connect
                | Kind::HandleWrite
        ),
        Err(_) => false,
    }
}

fn is_desk_kind(kind: u8) -> bool
    ensures { result ≡ desk_kind kind }
{
    match Kind::try_from(kind) {
        Ok(kind) => matches!(kind, Kind::Join | Kind::Leave),
        Err(_) => false,
    }
}

// A node and its stream.
pub fn at_row(ask: Ask) -> bool
    ensures { result ≡ at_row ask }
{
    is_row_kind(ask.kind) && step_parts::is_node(ask.count, ask.node)
}

// The service and all nodes.
pub fn at_desk(ask: Ask) -> bool
    ensures { result ≡ at_desk ask }
{
    is_desk_kind(ask.kind) && step_parts::is_node(ask.count, ask.node)
}

// Whether there is such a step, or why not: the kind is unknown, or it does not call for the node.
pub fn check_exists(ask: Ask) -> Result<(), Refusal>
    ensures { code_of result ≡ existence ask }
{
    // Each case refuses by itself: where both gave one flag to a test, the compiler made no branch of it, and the writer of lists took longer.
    match Kind::try_from(ask.kind)? {
        Kind::Shutdown | Kind::Startup => {
            if ask.node != 0 {
                return Err(Refusal::WrongNode);
            }
        }
        _ => {
            if !step_parts::is_node(ask.count, ask.node) {
                return Err(Refusal::WrongNode);
            }
        }
    }
    Ok(())
}

// Whether the switch runs after the step.
pub fn runs_after(ask: Ask) -> bool
    ensures { result ≡ runs_after ask }
{
    match Kind::try_from(ask.kind) {
        Ok(Kind::Startup) => true,
        Ok(Kind::Shutdown) => false,
        _ => ask.running,
    }
}
