//! What an executable loads.
ghost use Rattle.std.specs.Prelude.{IfOk};
ghost use Rattle.elf.specs.Places.{Stands};
ghost use Rattle.elf.specs.Programs.{Checked, Reads, FitsMemory};

use crate::error::ReadError;
use crate::fault::Fault;
use crate::header::{check_kind, entry, segments};
use crate::segments::Segments;
use std::alloc::Global;

/// What an executable loads.
#[derive(PartialEq, Eq, Debug, Drop)]
pub struct Program {
    /// The bytes of all segments at their physical addresses, from 0 to the end of the last, and zeros between.
    pub bytes: Vec<u8>,
    /// The end of the last byte that a segment has in memory, by its physical or its virtual address.
    pub memory_size: u32,
    /// The address of the first instruction.
    pub entry: u32,
}

/// The segments that a file loads, or its first fault.
fn checked_segments(file: &[u8]) -> Result<Segments<'_>, Fault>
    ensures { Checked file.now result }
{
    check_kind(file)?;
    let segments = segments(file)?;
    segments.check(file.len())?;
    Ok(segments)
}

/// What a file loads, or its first fault.
#[tactic(auto, using(crate::proofs::Checks::memory_of, crate::proofs::Checks::image_of, crate::proofs::Checks::stands_of))]
pub fn read(heap: Global, file: &[u8]) -> Result<Program, ReadError>
    ensures reads { Reads file.now result }
    ensures stands { IfOk result (λ p. Stands file.now p.bytes.items) }
    ensures fits { IfOk result FitsMemory }
{
    let segments = checked_segments(file)?;
    Ok(Program {
        bytes: segments.image(heap, file)?,
        memory_size: segments.memory_size() as u32,
        entry: entry(file),
    })
}
