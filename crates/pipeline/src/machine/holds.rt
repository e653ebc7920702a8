//! Holding a machine, and letting it go.
ghost use Rattle.pipeline.specs.Calls.{HoldCall, ReleaseCall};

use crate::machine::{Machine, Rejected};
use crate::token::HoldToken;
use base::refusal::Refusal;
use memory::Memory;
use predictor::Predictor;

impl<P: Predictor, I: Memory, D: Memory> Machine<P, I, D> {
    /// Freezes the machine, and hands out the token that lets it go; refused where it is held already.
    pub fn hold(&mut self) -> Result<HoldToken, Refusal>
        ensures { HoldCall self.old result self.new }
    {
        if self.held {
            return Err(Refusal::Held);
        }
        self.held = true;
        Ok(HoldToken::new(self.serial))
    }

    /// Lets the machine go, and spends the token; the token comes back where the machine is not held or the token bears
    /// another serial.
    pub fn release(&mut self, token: HoldToken) -> Result<(), Rejected>
        ensures { ReleaseCall self.old token result self.new }
    {
        if !self.held || token.serial() != self.serial {
            return Err(Rejected {
                why: Refusal::WrongToken,
                token,
            });
        }
        self.held = false;
        token.spend();
        Ok(())
    }
}
