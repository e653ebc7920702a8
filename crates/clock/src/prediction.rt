//! What a clock asks of the predictor.
ghost use Rattle.std.specs.Prelude.{◌≡◌};
ghost use Rattle.clocking.specs.Ports.{Taught, guess_after};

use base::branch::Outcome;
use predictor::Predictor;
use rv32i::cause::Cause;
use rv32i::micro_op::MicroOp;
use rv32i::target::Target;

/// A branch that retires teaches the predictor its outcome.
#[inline(always)]
pub fn teach<P: Predictor>(predictor: &mut P, outcome: Option<Outcome>)
    ensures { Taught P.Predictor.table predictor.old outcome predictor.new }
{
    if let Some(outcome) = outcome {
        predictor.update(outcome);
    }
}

/// Where fetching goes on after the word at `f`, by what it issues: only a branch is guessed.
#[inline(always)]
pub fn guess<P: Predictor>(predictor: &P, f: u32, issued: &Result<MicroOp, Cause>) -> u32
    ensures { result ≡ guess_after P.Predictor.table predictor.now f issued.now }
{
    match issued {
        Err(_) => f.wrapping_add(4),
        Ok(instruction) => match instruction.target(f) {
            Target::Next => f.wrapping_add(4),
            Target::Branch(target) => {
                if predictor.guess(f, target) {
                    target
                } else {
                    f.wrapping_add(4)
                }
            }
            Target::Jump(target) => target,
        },
    }
}
