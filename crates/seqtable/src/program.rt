//! A program from its input to its print.
ghost use Rattle.std.specs.Prelude.{IfOk, string_bytes};
ghost use Rattle.seqtable.specs.Programs.{Printed, Answered};

use crate::table::sequence_text;
use base::failure::Failure;
use base::log::Log;
use image::{PaddedImage, data_memory, padded};
use sequential::machine::Machine;
use sequential::record::Retired;
use std::alloc::{AllocError, Global};

/// The most instructions that a run retires.
const LIMIT: usize = 1000;

/// Runs an image on the sequential machine, from address 0, and prints what retired.
fn print_of(heap: Global, image: PaddedImage) -> Result<String, AllocError>
    ensures { IfOk result (λ t. Printed image.bytes.items (string_bytes t)) }
{
    let mut machine = Machine::new(0, image.into_memory(), data_memory(heap)?);
    let mut slots = [Retired::EMPTY; LIMIT];
    let mut log = Log::new(&mut slots);
    let stop = machine.run(&mut log);
    sequence_text(heap, log.records(), stop)
}

/// What is printed of an input, which is padded and then run; refused above 65536 bytes.
pub fn sequence_of(heap: Global, input: Vec<u8>) -> Result<String, Failure>
    ensures { Answered input.items result }
{
    let image = padded(input)?;
    Ok(print_of(heap, image)?)
}
