//! What clocklog prints of an image.
ghost use Rattle.std.specs.Prelude.{IfOk, string_bytes};
ghost use Rattle.report.specs.Clocklogs.{ClockPrinted, ClocklogAnswer};

use base::failure::Failure;
use clocking::state::ClockRecord;
use clocktable::table::clock_table;
use image::{PaddedImage, data_memory, padded};
use pipeline::journal::Journal;
use pipeline::machine::{RetiredAt, load};
use predictor::never::Never;
use std::alloc::{AllocError, Global};

/// The most clocks that a run makes.
const LIMIT: usize = 1000;

/// Clocks an image through the pipeline, from address 0, and prints what retired, the clocks and the counts.
fn print_of(heap: Global, image: PaddedImage) -> Result<String, AllocError>
    ensures { IfOk result (λ t. ClockPrinted image.bytes.items (string_bytes t)) }
{
    let mut machine = load(0, 0, Never, image.into_memory(), data_memory(heap)?);
    let mut retired_slots = [RetiredAt::EMPTY; LIMIT];
    let mut clock_slots = [ClockRecord::EMPTY; LIMIT];
    let mut journal = Journal::new(&mut retired_slots, &mut clock_slots);
    machine.run(LIMIT as u32, &mut journal);
    clock_table(
        heap,
        journal.retirements.records(),
        journal.clocks.records(),
        machine.stopped(),
        machine.counts(),
    )
}

/// What is printed of an input, which is padded and then clocked; refused above 65536 bytes.
pub fn clocks_of(heap: Global, input: Vec<u8>) -> Result<String, Failure>
    ensures { ClocklogAnswer input.items result }
{
    let image = padded(input)?;
    Ok(print_of(heap, image)?)
}
