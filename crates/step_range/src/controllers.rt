// The rows of the nodes.
#![tactic(auto, using(std::proofs::lemmas::Bool::Decides::nat_tests), unfolding(step_range_queues::specs::Tests::events_test, step_range_queues::specs::Tests::learned_test, crate::specs::Tests::controller_test, crate::specs::Tests::blank_controller_test))]

ghost use Rattle.std.specs.Prelude.{◌≡◌, cond};
ghost use Rattle.step_range.specs.Tests.{controller_test, blank_controller_test, controllers_test};

use step_range_queues::masterships::mastership_fits;
use step_range_queues::queues::queue_fits;
use step_state::{Controller, Core};

// A row for a node. One above N fits among no nodes: without events, and with nothing learned.
fn controller_fits(used: bool, count: u8, row: Controller) -> bool
    ensures { result ≡ cond used (controller_test count row) (blank_controller_test row) }
{
    let knows = row.learned.term.0 != 0;
    if used {
        return queue_fits(count, row.events) && mastership_fits(knows, count, row.learned);
    }
    if row.says {
        return false;
    }
    queue_fits(0, row.events) && mastership_fits(knows, 0, row.learned)
}

pub fn controllers_fit(count: u8, core: Core) -> bool
    ensures { result ≡ controllers_test count core.controllers }
{
    for (i, row) in core.controllers.iter().enumerate() {
        if !controller_fits(i < count as usize, count, *row) {
            return false;
        }
    }
    true
}
