//! From a set-up and an input to the print.
ghost use Rattle.report.specs.Timings.{ImageAnswer, TimingAnswer};

use super::assembly::zeroed_memory;
use super::over::run_over_stacks;
use base::failure::Failure;
use dispatch::stack::build;
use image::{PaddedImage, padded};
use longrun::run::Watch;
use setup::choice::Setup;
use std::alloc::Global;

/// What is printed of a run of a padded image on the machine of a set-up. Refused where a check
/// refuses the set-up.
fn run_image<W: Watch>(
    heap: Global,
    setup: &Setup,
    image: PaddedImage,
    watch: &mut W,
) -> Result<String, Failure>
    ensures { ImageAnswer setup.now image.bytes.items result }
{
    let instructions = build(image.into_bytes(), setup.instructions)?;
    let data_memory = zeroed_memory(heap, setup)?;
    run_over_stacks(heap, setup, instructions, data_memory, watch)
}

/// What is printed of a run of an image, which is padded, on the machine of a set-up: the tables if
/// they are asked for, and the report. Refused above 65536 bytes, and where a check refuses the
/// set-up.
pub fn timing_of<W: Watch>(
    heap: Global,
    setup: &Setup,
    input: Vec<u8>,
    watch: &mut W,
) -> Result<String, Failure>
    ensures { TimingAnswer setup.now input.items result }
{
    run_image(heap, setup, padded(input)?, watch)
}
