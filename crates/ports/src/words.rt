// The words that a queue holds, one after another.
ghost use Rattle.std.specs.Prelude.{◌≡◌, ◌≤◌, length};
ghost use Rattle.std.specs.Iterator.{YieldsFirst, YieldsLast, item_count};
ghost use Rattle.ports.specs.Ring.{Fair, contents, Serves};

use crate::Counters;
use std::marker::Model;

// What a queue that is a ring of N words holds, seen as the list of those words, oldest first: its
// counters, and its own stretch of the memory.
#[derive(Drop)]
pub struct Words<'a, const N: u32> {
    counters: Counters,
    stretch: &'a [u16],
}

impl<'a, const N: u32> Model for Words<'a, N> {
    ghost use Rattle.std.specs.Prelude.{◌≡◌, ℕ, List, length};
    ghost use Rattle.ports.specs.Ring.{Fair, contents, Serves};

    ghost Value = { List ℕ };

    ghost view = { λ w. contents N w.counters w.stretch.now };

    ghost invariant = { λ w. Fair N w.counters × (length w.stretch.now ≡ N) × Serves N };
}

impl<'a, const N: u32> Words<'a, N> {
    pub fn new(counters: Counters, stretch: &'a [u16]) -> Self
        requires { Fair N counters × (length stretch.now ≡ N) × Serves N }
        ensures { result ≡ contents N counters stretch.now }
    {
        Self { counters, stretch }
    }

    // The same words, to go over once more; no more than the ring has.
    #[tactic(auto, using(crate::proofs::Rings::ring_long))]
    pub fn iter(&self) -> Self
        ensures { (result ≡ self.now) × (length self.now ≤ N) }
    {
        Self {
            counters: self.counters,
            stretch: self.stretch,
        }
    }
}

impl<'a, const N: u32> Iterator for Words<'a, N> {
    type Item = u16;

    ghost next_gives = { YieldsFirst (λ rest. rest) };

    ghost remaining = { item_count (λ rest. rest) };

    #[tactic(auto, using(crate::proofs::Rings::held_none, crate::proofs::Rings::held_first, crate::proofs::Rings::ring_long))]
    fn next(&mut self) -> Option<u16> {
        let Counters { head, held } = self.counters;
        if held == 0 {
            return None;
        }
        self.counters = Counters {
            head: (head + 1) % N,
            held: held - 1,
        };
        Some(self.stretch[head as usize])
    }
}

// From the last that was put.
impl<'a, const N: u32> DoubleEndedIterator for Words<'a, N> {
    ghost next_back_gives = { YieldsLast (λ rest. rest) };

    #[tactic(auto, using(crate::proofs::Rings::held_none, crate::proofs::Rings::held_last, crate::proofs::Rings::ring_long))]
    fn next_back(&mut self) -> Option<u16> {
        let Counters { head, held } = self.counters;
        if held == 0 {
            return None;
        }
        let last = held - 1;
        self.counters = Counters { head, held: last };
        Some(self.stretch[((head + last) % N) as usize])
    }
}
