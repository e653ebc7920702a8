//! Write-back: W stops the machine or retires.
ghost use Rattle.std.specs.Prelude.{◌≡◌};
ghost use Rattle.clocking.specs.WriteBack.{stop_of, retirement_of, outcome_of, write_back};

use base::branch::Outcome;
use clocking::latch::{Completed, Latch};
use rv32i::registers::Registers;
use sequential::record::{Retired, Retirement, Stop};

/// Where and why the machine stops, if W is faulting.
#[inline(always)]
pub fn stop_of(w: &Latch<Completed>) -> Option<Stop>
    ensures { result ≡ stop_of w.now }
{
    match *w {
        Latch::Faulting(stop) => Some(stop),
        Latch::Empty | Latch::Full(_) => None,
    }
}

/// What retires, if W is full and not faulting.
#[inline(always)]
pub fn retirement_of(w: &Latch<Completed>) -> Option<Retirement>
    ensures { result ≡ retirement_of w.now }
{
    match *w {
        Latch::Full(c) => Some(Retirement {
            retired: Retired::new(c.address, c.word, c.rd, c.value),
            outcome: c.outcome,
        }),
        Latch::Empty | Latch::Faulting(_) => None,
    }
}

/// The outcome of the branch that retires, if it is one.
#[inline(always)]
pub fn outcome_of(w: &Latch<Completed>) -> Option<Outcome>
    ensures { result ≡ outcome_of (retirement_of w.now) }
{
    match *w {
        Latch::Full(c) => c.outcome,
        Latch::Empty | Latch::Faulting(_) => None,
    }
}

/// Writes what retires to the register file.
#[inline(always)]
pub fn write_back(registers: &mut Registers, w: &Latch<Completed>)
    ensures { registers.new ≡ write_back registers.old w.now }
{
    if let Latch::Full(c) = *w {
        registers.write(c.rd, c.value);
    }
}
