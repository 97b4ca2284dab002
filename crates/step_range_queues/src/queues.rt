// Queues of anything that can be tested.
ghost use Rattle.std.specs.Prelude.{◌≡◌, Bool, cond, ℕ};
ghost use Rattle.rules.specs.Limits.{queue_length};
ghost use Rattle.step_range_queues.specs.Tests.{places_test};

use step_parts::{Bounded, Queue};

// What fits a place of a queue, among `count` nodes: one in use, and one behind those.
pub trait Fits {
    ghost in_use: { ℕ → Self → Bool };

    ghost behind: { Self → Bool };

    fn fits(self, used: bool, count: u8) -> bool
        ensures { result ≡ cond used (in_use count self) (behind self) };
}

// Whether every place of the queue fits. What is read past its end never counts.
pub fn queue_fits<T: Fits + Copy>(count: u8, q: Queue<T>) -> bool
    ensures { (past : T) → result ≡ places_test queue_length (T.in_use count) T.behind past q.items q.len }
{
    if Queue::<T>::CAPACITY < q.len {
        return false;
    }
    for (i, x) in q.items.iter().enumerate() {
        if !x.fits(i < q.len as usize, count) {
            return false;
        }
    }
    true
}
