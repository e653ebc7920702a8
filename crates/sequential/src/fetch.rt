//! Where a word can be fetched: one rule for the sequential machine and for the pipeline.
ghost use Rattle.rv32i.specs.Causes.{Gives};
ghost use Rattle.sequential.specs.Sequential.{fetchable};

use rv32i::cause::Cause;

/// Whether a word can be fetched at an address of an instruction memory of that size, or the cause
/// why it cannot.
#[inline(always)]
pub fn fetchable(size: u32, address: u32) -> Result<(), Cause>
    ensures { Gives (fetchable size address) result }
{
    if address % 4 != 0 {
        Err(Cause::InstructionMisaligned)
    } else if address >= size {
        Err(Cause::InstructionAccessFault)
    } else {
        Ok(())
    }
}
