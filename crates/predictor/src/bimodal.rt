//! A counter for each branch.
ghost use Rattle.std.specs.Prelude.{◌≡◌};
ghost use Rattle.predictor.specs.Counting.{initial_values, value_at, index_of};
ghost use Rattle.predictor.specs.States.{counters_of, bimodal_table};
ghost use Rattle.predictor.specs.Tables.{MovedOn, counters_after};

use crate::Predictor;
use crate::counter::Counter;
use crate::counters::Counters;
use base::branch::Outcome;

/// Guesses that a branch is taken if its counter is high; the counter goes up when it was, and down when not.
#[derive(Drop)]
pub struct Bimodal {
    counters: Counters,
}

impl Bimodal {
    /// All counters are 1 at first.
    pub fn new() -> Bimodal
        ensures { counters_of result ≡ initial_values }
    {
        Bimodal {
            counters: Counters::new(),
        }
    }

    /// The counter that the branch at `address` has.
    pub fn counter(&self, address: u32) -> Counter
        ensures { result.value ≡ value_at (counters_of self.now) (index_of address) }
    {
        self.counters.get(Counters::index_of(address))
    }
}

impl Predictor for Bimodal {
    ghost table = { bimodal_table };

    fn guess(&self, address: u32, _target: u32) -> bool {
        self.counter(address).is_high()
    }

    fn update(&mut self, outcome: Outcome)
        ensures table { MovedOn (bimodal_table self.old) outcome (bimodal_table self.new) }
        ensures counters { counters_of self.new ≡ counters_after (counters_of self.old) outcome }
    {
        let index = Counters::index_of(outcome.address);
        self.counters.count(index, outcome.taken);
    }
}
