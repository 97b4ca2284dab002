// Where two histories first differ, read from the buffers that two runs have filled.
#![tactic(auto)]

ghost use Rattle.std.specs.Prelude.{◌≡◌, ◌*◌, ◌≤◌, length};
ghost use Rattle.rules.specs.Limits.{history_length};
ghost use Rattle.run_difference.specs.Difference.{entries, entry_in, common, difference};

use step_parts::Write;

// The place, from 1, of the first entry in which two histories differ, and that entry in each, if the history has it.
#[derive(Clone, Copy)]
pub struct Parting {
    pub at: u32,
    pub one: Option<Write>,
    pub other: Option<Write>,
}

// Entry number i of n.
fn entry_of(part: &[u8], n: usize, i: usize) -> Option<Write>
    requires { 4 * n ≤ length part.now }
    ensures { result ≡ entry_in (entries part.now n) i }
{
    if i < n {
        return Some(run_lists::entry_at(part, i));
    }
    None
}

// How many entries the two have in common at their front.
fn common(one: &[u8], n: usize, other: &[u8], m: usize) -> usize
    requires { (4 * n ≤ length one.now) × (4 * m ≤ length other.now) }
    ensures { result ≡ common (entries one.now n) (entries other.now m) }
{
    let both = n.min(m);
    for i in 0..both {
        if run_lists::entry_at(one, i) != run_lists::entry_at(other, i) {
            return i;
        }
    }
    both
}

// Compares n entries of the one part with m of the other. None where they agree.
pub fn difference(one: &[u8], n: usize, other: &[u8], m: usize) -> Option<Parting>
    requires { (n ≤ history_length) × (4 * n ≤ length one.now) × (4 * m ≤ length other.now) }
    ensures { result ≡ difference (entries one.now n) (entries other.now m) }
{
    let i = common(one, n, other, m);
    if i == n && i == m {
        return None;
    }
    Some(Parting {
        at: i as u32 + 1,
        one: entry_of(one, n, i),
        other: entry_of(other, m, i),
    })
}
