//! What a step leaves behind.
ghost use Rattle.std.specs.Prelude.{◌≡◌};
ghost use Rattle.sequential.specs.Sequential.{retired};

use base::branch::Outcome;
use rv32i::cause::Cause;
use rv32i::register::Register;

/// The record of an instruction that retired: where it stood, its word, the register that it wrote, if any, and the value
/// that it wrote there, else 0.
#[derive(Clone, Copy, PartialEq, Eq, Debug)]
pub struct Retired {
    pub address: u32,
    pub word: u32,
    pub rd: Option<Register>,
    pub value: u32,
}

/// An instruction that retired, and its outcome if it is a conditional branch.
#[derive(Clone, Copy, PartialEq, Eq, Debug)]
pub struct Retirement {
    pub retired: Retired,
    pub outcome: Option<Outcome>,
}

/// The instruction at which a machine stopped for good, and why.
#[derive(Clone, Copy, PartialEq, Eq, Debug)]
pub struct Stop {
    pub address: u32,
    pub cause: Cause,
}

impl Retired {
    /// A slot of a log that holds no record yet.
    pub const EMPTY: Retired = Retired {
        address: 0,
        word: 0,
        rd: None,
        value: 0,
    };

    /// The record of an instruction that writes `value` to `rd`, if it writes.
    pub fn new(address: u32, word: u32, rd: Option<Register>, value: u32) -> Retired
        ensures { result ≡ retired address word rd value }
    {
        Retired {
            address,
            word,
            rd,
            value: match rd {
                Some(_) => value,
                None => 0,
            },
        }
    }
}
