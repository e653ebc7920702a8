//! The memories and the machine of a set-up.
ghost use Rattle.report.specs.Timings.{DataAnswer, AssemblyAnswer};

use crate::lines::Longest;
use base::failure::Failure;
use base::refusal::Refusal;
use dispatch::predictors::{Chosen, chosen};
use dispatch::stack::{Stack, build};
use memory::{Flat, Memory};
use pipeline::machine::{Machine, check, load};
use predictor::Predictor;
use setup::choice::Setup;
use std::alloc::Global;

/// The chosen stack over zero bytes of data.
#[tactic(auto, using(crate::proofs::Refusing::data_made, crate::proofs::Refusing::data_unfit))]
pub(crate) fn zeroed_memory(heap: Global, setup: &Setup) -> Result<Stack, Failure>
    ensures { DataAnswer setup.now result }
{
    let size = setup.data_size as usize;
    Flat::check(size)?;
    let zeros = vec![in heap; 0u8; size]?;
    Ok(build(zeros, setup.data_memory)?)
}

/// A machine that is loaded, and the longest waits of its memories.
#[derive(Drop)]
pub(crate) struct Assembly<P: Predictor, I: Memory, D: Memory> {
    pub machine: Machine<P, I, D>,
    pub longest: Longest,
}

/// Loads a machine with the chosen predictor, over these memories.
pub(crate) fn assemble<I: Memory + Drop, D: Memory + Drop>(
    setup: &Setup,
    instructions: I,
    data_memory: D,
) -> Result<Assembly<Chosen, I, D>, Refusal>
    ensures { AssemblyAnswer I.Memory.means D.Memory.means
        setup.now instructions data_memory result }
{
    check(0, setup.start, &instructions)?;
    let longest = Longest {
        instructions: instructions.longest(),
        data_memory: data_memory.longest(),
    };
    let predictor = chosen(setup.predictor);
    let machine = load(0, setup.start, predictor, instructions, data_memory);
    Ok(Assembly { machine, longest })
}
