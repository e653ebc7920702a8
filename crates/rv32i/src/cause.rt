//! Why a machine stops.
ghost use Rattle.std.specs.Prelude.{◌≡◌};
ghost use Rattle.rv32i.specs.Causes.{cause_number};

/// Why an instruction cannot retire, with its number in the privileged architecture.
#[derive(Clone, Copy, PartialEq, Eq, Debug)]
pub enum Cause {
    /// A jump or a taken branch to no multiple of 4.
    InstructionMisaligned = 0,
    /// An instruction address outside the instruction memory.
    InstructionAccessFault = 1,
    /// A word that is no instruction.
    IllegalInstruction = 2,
    /// `ebreak`.
    Breakpoint = 3,
    /// A load that is not aligned to its width.
    LoadMisaligned = 4,
    /// A load outside the data memory.
    LoadAccessFault = 5,
    /// A store that is not aligned to its width.
    StoreMisaligned = 6,
    /// A store outside the data memory.
    StoreAccessFault = 7,
    /// `ecall`.
    EnvironmentCall = 11,
}

impl Cause {
    /// Its number, as the privileged architecture has it.
    pub fn number(self) -> u32
        ensures { result ≡ cause_number self }
    {
        self as u32
    }
}
