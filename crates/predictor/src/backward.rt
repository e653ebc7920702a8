//! The predictor that guesses by the direction of a branch.
ghost use Rattle.predictor.specs.Tables.{backward};

use crate::Predictor;
use base::branch::Outcome;

/// Guesses that a branch is taken unless its target lies ahead, since a branch back most often closes a loop; it learns nothing.
#[derive(Clone, Copy)]
pub struct Backward;

impl Predictor for Backward {
    ghost table = { λ _. backward };

    fn guess(&self, address: u32, target: u32) -> bool {
        target <= address
    }

    fn update(&mut self, _outcome: Outcome) {}
}
