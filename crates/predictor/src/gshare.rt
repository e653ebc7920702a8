//! A counter for each branch under each history.
ghost use Rattle.std.specs.Prelude.{◌≡◌};
ghost use Rattle.predictor.specs.Counting.{initial_values, value_at, index_under, history_after};
ghost use Rattle.predictor.specs.States.{gshare_counters, history_of, gshare_table};
ghost use Rattle.predictor.specs.Tables.{MovedOn, gshare_counters_after};

use crate::Predictor;
use crate::counter::Counter;
use crate::counters::Counters;
use crate::history::History;
use base::branch::Outcome;

/// Guesses by counters as a bimodal predictor does, but the latest outcomes of all branches have a say in which counter a branch has.
#[derive(Drop)]
pub struct Gshare {
    counters: Counters,
    history: History,
}

impl Gshare {
    /// All counters are 1 at first, and the history is 0.
    pub fn new() -> Gshare
        ensures counters { gshare_counters result ≡ initial_values }
        ensures history { history_of result ≡ 0 }
    {
        Gshare {
            counters: Counters::new(),
            history: History::new(),
        }
    }

    /// The latest outcomes, as `History` has them.
    pub fn history(&self) -> u8
        ensures { result ≡ history_of self.now }
    {
        self.history.bits
    }

    /// Which counter the branch at `address` has now.
    fn index(&self, address: u32) -> u8
        ensures { result ≡ index_under (history_of self.now) address }
    {
        Counters::index_of(address) ^ self.history()
    }

    /// The counter that the branch at `address` has now.
    pub fn counter(&self, address: u32) -> Counter
        ensures { result.value
            ≡ value_at (gshare_counters self.now) (index_under (history_of self.now) address) }
    {
        self.counters.get(self.index(address))
    }
}

impl Predictor for Gshare {
    ghost table = { gshare_table };

    fn guess(&self, address: u32, _target: u32) -> bool {
        self.counter(address).is_high()
    }

    fn update(&mut self, outcome: Outcome)
        ensures table { MovedOn (gshare_table self.old) outcome (gshare_table self.new) }
        ensures counters { gshare_counters self.new
            ≡ gshare_counters_after (history_of self.old) (gshare_counters self.old) outcome }
        ensures history { history_of self.new ≡ history_after (history_of self.old) outcome.taken }
    {
        let index = self.index(outcome.address);
        self.counters.count(index, outcome.taken);
        self.history.push(outcome.taken);
    }
}
