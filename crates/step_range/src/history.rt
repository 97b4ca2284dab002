// The history.
#![tactic(auto, using(std::proofs::lemmas::Bool::Decides::nat_tests), unfolding(rules::specs::Range::write_fits, step_state::specs::Tidy::blank_write, step_range_queues::specs::Tests::places_test, crate::specs::Tests::history_test))]

ghost use Rattle.std.specs.Prelude.{◌≡◌};
ghost use Rattle.step_range.specs.Tests.{write_test, history_test};

use step_parts::Write;
use step_state::History;

fn write_fits(count: u8, e: Write) -> bool
    ensures { result ≡ write_test count e }
{
    step_parts::is_node(count, e.node) && step_range_queues::masterships::is_term(e.term)
}

// The places in use, then those behind them. With one loop, which asks at each place, the whole test takes half as many
// instructions again.
pub fn history_fits(count: u8, h: History) -> bool
    ensures { result ≡ history_test count h }
{
    if step_parts::HISTORY_LENGTH < h.len {
        return false;
    }
    for e in &h.items[..h.len as usize] {
        if !write_fits(count, *e) {
            return false;
        }
    }
    for e in &h.items[h.len as usize..] {
        if e.node != 0 || e.term.0 != 0 {
            return false;
        }
    }
    true
}
