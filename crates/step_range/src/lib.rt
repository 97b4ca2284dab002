// Whether a state is in range: the test whose no is code 1. Every place of every array is looked at.
#![tactic(auto)]

mod controllers;
mod history;
mod streams;

ghost use Rattle.std.specs.Prelude.{◌≡◌, ◌≤◌};
ghost use Rattle.rules.specs.Limits.{most_nodes};
ghost use Rattle.step_state.specs.Tidy.{state_fits};
ghost use Rattle.step_range.specs.Tests.{core_test};

use step_state::{Core, State};

// What one role owns.
#[tactic(auto, using(std::proofs::lemmas::Bool::Decides::nat_tests), unfolding(crate::specs::Tests::core_test))]
fn core_fits(count: u8, running: bool, core: Core) -> bool
    requires { count ≤ most_nodes }
    ensures { result ≡ core_test count running core }
{
    core.claims.last.0 <= step_parts::TOP_TERM
        && step_range_queues::masterships::service_fits(count, core.service)
        && controllers::controllers_fit(count, core)
        && streams::streams_fit(count, running, core)
        && streams::held_fits(count, core.claims)
}

// What the state holds is in the rules' range, and unused places and rows above N are blank. N is a number of 1 to 8.
pub fn in_range(s: State) -> bool
    ensures { result ≡ state_fits s }
{
    step_parts::is_node(step_parts::MOST_NODES, s.count)
        && core_fits(s.count, s.running, s.core)
        && history::history_fits(s.count, s.history)
}
