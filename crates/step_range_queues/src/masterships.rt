// Masterships.
#![tactic(auto, using(std::proofs::lemmas::Bool::Decides::nat_tests), unfolding(rules::specs::Range::within, crate::specs::Tests::backup_at, crate::specs::Tests::blank_test, crate::specs::Tests::event_test, crate::specs::Tests::service_test))]

ghost use Rattle.std.specs.Prelude.{◌≡◌, cond, ◌<◌};
ghost use Rattle.rules.specs.Limits.{most_backups, top_term};
ghost use Rattle.rules.specs.Range.{within};
ghost use Rattle.step_range_queues.specs.Tests.{backup_at, backups_test, blank_test, event_test, service_test};

use crate::queues::Fits;
use step_parts::{Mastership, Term};

// Whether t is a term that the service can have given.
pub fn is_term(t: Term) -> bool
    ensures { result ≡ within 1 top_term t.0 }
{
    1 <= t.0 && t.0 <= step_parts::TOP_TERM
}

// The number b at place i of the backups: behind those in use it is 0.
// Else it is a node whose first place in the mastership this is: not the master, and no backup before it.
fn backup_fits(count: u8, m: Mastership, i: u8, b: u8) -> bool
    requires { i < most_backups }
    ensures { result ≡ backup_at count m i b }
{
    if m.len <= i {
        return b == 0;
    }
    step_parts::is_node(count, b) && m.place_of(b) == i + 1
}

// Among no nodes, only no backups fit.
fn backups_fit(count: u8, m: Mastership) -> bool
    ensures { result ≡ backups_test count m }
{
    if step_parts::MOST_BACKUPS < m.len {
        return false;
    }
    for (i, b) in m.backups.iter().enumerate() {
        if !backup_fits(count, m, i as u8, *b) {
            return false;
        }
    }
    true
}

// A place for a mastership: in use, it has a master; else it is blank.
pub fn mastership_fits(used: bool, count: u8, m: Mastership) -> bool
    ensures { result ≡ cond used (event_test count m) (blank_test m) }
{
    if used {
        is_term(m.term) && step_parts::is_node(count, m.master) && backups_fit(count, m)
    } else {
        m.term.0 == 0 && m.master == 0 && backups_fit(0, m)
    }
}

impl Fits for Mastership {
    ghost in_use = { event_test };

    ghost behind = { blank_test };

    fn fits(self, used: bool, count: u8) -> bool {
        mastership_fits(used, count, self)
    }
}

// The service's mastership keeps its term where it has no master.
pub fn service_fits(count: u8, m: Mastership) -> bool
    ensures { result ≡ service_test count m }
{
    if m.master == 0 {
        return m.term.0 <= step_parts::TOP_TERM && backups_fit(0, m);
    }
    mastership_fits(true, count, m)
}
