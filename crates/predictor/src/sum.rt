//! A predictor of one of two kinds.
ghost use Rattle.either.specs.Either.{either};

use crate::Predictor;
use base::branch::Outcome;
use either::{Either, for_both};

impl<A: Predictor, B: Predictor> Predictor for Either<A, B> {
    ghost table = { either A.Predictor.table B.Predictor.table };

    fn guess(&self, address: u32, target: u32) -> bool {
        for_both!(self, predictor => predictor.guess(address, target))
    }

    fn update(&mut self, outcome: Outcome) {
        for_both!(self, predictor => predictor.update(outcome))
    }
}
