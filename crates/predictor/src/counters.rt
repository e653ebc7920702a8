//! A table of saturating counters.
ghost use Rattle.std.specs.Prelude.{◌≡◌};
ghost use Rattle.predictor.specs.Counting.{initial_values, value_at, values_after, index_of};

use crate::counter::Counter;
use std::marker::Model;

/// 256 counters; clauses see the list of their values.
#[derive(Drop)]
pub struct Counters {
    values: [u8; 256],
}

impl Model for Counters {
    ghost use Rattle.std.specs.Prelude.{ℕ, ◌≤◌, List, slice_index};

    ghost Value = { List ℕ };

    ghost view = { λ c. c.values };

    ghost invariant = { λ c. (k : ℕ) → slice_index c.values k ≤ 3 };
}

impl Counters {
    /// All of them are 1 at first.
    pub fn new() -> Counters
        ensures { result ≡ initial_values }
    {
        Counters { values: [1; 256] }
    }

    /// The index of the one that the branch at `address` has: the number of its word, modulo 256.
    pub fn index_of(address: u32) -> u8
        ensures { result ≡ index_of address }
    {
        (address / 4 % 256) as u8
    }

    /// The counter at an index.
    pub fn get(&self, index: u8) -> Counter
        ensures { result.value ≡ value_at self.now index }
    {
        Counter {
            value: self.values[usize::from(index)],
        }
    }

    /// The counter at an index goes one step up or down; the others stay.
    pub fn count(&mut self, index: u8, up: bool)
        ensures { self.new ≡ values_after self.old index up }
    {
        self.values[usize::from(index)] = self.get(index).after(up).value;
    }
}
