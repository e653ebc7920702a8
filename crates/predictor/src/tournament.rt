//! Two predictors, and counters that choose between them.
ghost use Rattle.std.specs.Prelude.{◌≡◌};
ghost use Rattle.predictor.specs.Counting.{initial_values, value_at, index_of};
ghost use Rattle.predictor.specs.States.{choosers_of, first_of, second_of, next_choosers, tournament_table};
ghost use Rattle.predictor.specs.Tables.{MovedOn};

use crate::Predictor;
use crate::counter::Counter;
use crate::counters::Counters;
use base::branch::Outcome;

/// Takes the guess of the second of two predictors if the branch's choosing counter is high, else that of the first.
#[derive(Drop)]
pub struct Tournament<A, B> {
    choosers: Counters,
    first: A,
    second: B,
}

impl<A, B> Tournament<A, B> {
    /// All choosing counters are 1 at first.
    pub fn new(first: A, second: B) -> Tournament<A, B>
        ensures choosers { choosers_of result ≡ initial_values }
        ensures first { first_of result ≡ first }
        ensures second { second_of result ≡ second }
    {
        Tournament {
            choosers: Counters::new(),
            first,
            second,
        }
    }

    /// The choosing counter that the branch at `address` has.
    pub fn chooser(&self, address: u32) -> Counter
        ensures { result.value ≡ value_at (choosers_of self.now) (index_of address) }
    {
        self.choosers.get(Counters::index_of(address))
    }
}

impl<A: Predictor, B: Predictor> Tournament<A, B> {
    /// Where the two guesses for a branch differ, its choosing counter goes up if the second was right, else down.
    fn judge(&mut self, outcome: Outcome)
        ensures choosers { choosers_of self.new
            ≡ next_choosers A.Predictor.table B.Predictor.table self.old outcome }
        ensures first { first_of self.new ≡ first_of self.old }
        ensures second { second_of self.new ≡ second_of self.old }
    {
        let first = self.first.guess(outcome.address, outcome.target);
        let second = self.second.guess(outcome.address, outcome.target);
        if first != second {
            let index = Counters::index_of(outcome.address);
            self.choosers.count(index, second == outcome.taken);
        }
    }
}

impl<A: Predictor, B: Predictor> Predictor for Tournament<A, B> {
    ghost table = { tournament_table A.Predictor.table B.Predictor.table };

    fn guess(&self, address: u32, target: u32) -> bool {
        if self.chooser(address).is_high() {
            self.second.guess(address, target)
        } else {
            self.first.guess(address, target)
        }
    }

    fn update(&mut self, outcome: Outcome)
        ensures table { let table = tournament_table A.Predictor.table B.Predictor.table in
            MovedOn (table self.old) outcome (table self.new) }
        ensures choosers { choosers_of self.new
            ≡ next_choosers A.Predictor.table B.Predictor.table self.old outcome }
        ensures first { let table = A.Predictor.table in
            MovedOn (table (first_of self.old)) outcome (table (first_of self.new)) }
        ensures second { let table = B.Predictor.table in
            MovedOn (table (second_of self.old)) outcome (table (second_of self.new)) }
    {
        self.judge(outcome);
        self.first.update(outcome);
        self.second.update(outcome);
    }
}
