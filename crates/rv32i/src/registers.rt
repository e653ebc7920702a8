//! The register file.
ghost use Rattle.std.specs.Prelude.{◌≡◌, ◌<◌, replicate};
ghost use Rattle.rv32i.specs.Registers.{register, nonzero, operand, written, RegisterRead, RegisterMade};

use crate::register::Register;
use base::refusal::Refusal;
use std::marker::Model;

impl Register {
    /// The register of that number; refused above 31.
    pub fn new(number: u32) -> Result<Register, Refusal>
        ensures { RegisterMade number result }
    {
        if number < 32 {
            Ok(Register {
                number: number as u8,
            })
        } else {
            Err(Refusal::NotThere)
        }
    }

    /// The register whose number stands in the low five bits.
    #[tactic(auto, using(crate::proofs::Numbered::same_number))]
    pub fn of_bits(bits: u32) -> Register
        ensures { result ≡ register bits }
    {
        Register {
            number: (bits % 32) as u8,
        }
    }

    pub fn number(self) -> u8
        ensures value { result ≡ self.number }
        ensures bound { result < 32 }
    {
        self.number
    }

    /// The register, unless it is x0, which is always 0 and is never written.
    pub fn nonzero(self) -> Option<Register>
        ensures { result ≡ nonzero self }
    {
        (self.number != 0).then_some(self)
    }
}

/// The values of x0 to x31; that of x0 is always 0.
#[derive(Clone, Copy, PartialEq, Eq, Debug)]
pub struct Registers {
    values: [u32; 32],
}

impl Model for Registers {
    ghost use Rattle.std.specs.Prelude.{◌≡◌, ℕ, List, slice_index};

    ghost Value = { List ℕ };

    ghost view = { λ r. r.values };

    ghost invariant = { λ r. slice_index r.values 0 ≡ 0 };

    ghost inverse = { λ values. record { values = values } };
}

impl Registers {
    /// All zero.
    pub fn new() -> Registers
        ensures { result ≡ replicate 32 0 }
    {
        Registers { values: [0; 32] }
    }

    /// The value of a register, or 0 where there is none to read.
    #[inline(always)]
    pub fn read(&self, source: Option<Register>) -> u32
        ensures { result ≡ operand self.now source }
    {
        source.map_or(0, |r| self.values[usize::from(r.number)])
    }

    /// The value of the register of that number, 0 for x0; refused above 31.
    pub fn get(&self, number: u32) -> Result<u32, Refusal>
        ensures { RegisterRead self.now number result }
    {
        let register = Register::new(number)?;
        Ok(self.values[usize::from(register.number)])
    }

    /// Sets a register, if there is one to set; x0 stays 0.
    #[inline(always)]
    pub fn write(&mut self, destination: Option<Register>, value: u32)
        ensures { self.new ≡ written self.old destination value }
    {
        if let Some(r) = destination {
            if r.number != 0 {
                self.values[usize::from(r.number)] = value;
            }
        }
    }
}
