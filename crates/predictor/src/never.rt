//! The predictor that never guesses taken.
ghost use Rattle.predictor.specs.Tables.{never};

use crate::Predictor;
use base::branch::Outcome;

/// Guesses that no branch is taken, and learns nothing.
#[derive(Clone, Copy)]
pub struct Never;

impl Predictor for Never {
    ghost table = { λ _. never };

    fn guess(&self, _address: u32, _target: u32) -> bool {
        false
    }

    fn update(&mut self, _outcome: Outcome) {}
}
