//! How a machine is held and let go again.
ghost use Rattle.pipeline.specs.Pauses.{PauseCall};

use crate::machine::Machine;
use base::refusal::Refusal;
use memory::Memory;
use predictor::Predictor;

/// Holds a machine that is not held and lets it go again, so that it is as it was.
pub fn pause<P: Predictor, I: Memory, D: Memory>(
    machine: &mut Machine<P, I, D>,
) -> Result<(), Refusal>
    ensures { PauseCall machine.old result machine.new }
{
    let token = machine.hold()?;
    // no `map_err`: what comes back holds a token, which may not be dropped
    match machine.release(token) {
        Ok(()) => Ok(()),
        Err(_) => unreachable(),
    }
}
