//! A run over the chosen memories, whose depths are asked before it and not in each clock.
ghost use Rattle.dispatch.specs.Stacks.{memory, stack_means};
ghost use Rattle.report.specs.Timings.{RunAnswer};

use super::assembly::assemble;
use super::running::run_and_report;
use base::failure::Failure;
use dispatch::stack::Stack;
use longrun::run::Watch;
use memory::Memory;
use setup::choice::Setup;
use std::alloc::Global;

/// What is printed of the run of a set-up over these memories; refused where the start is not in
/// the instruction memory.
fn run_over<I: Memory + Drop, D: Memory + Drop, W: Watch>(
    heap: Global,
    setup: &Setup,
    instructions: I,
    data_memory: D,
    watch: &mut W,
) -> Result<String, Failure>
    ensures { RunAnswer I.Memory.means D.Memory.means setup.now instructions data_memory result }
{
    let mut assembly = assemble(setup, instructions, data_memory)?;
    Ok(run_and_report(heap, setup, &mut assembly, watch)?)
}

/// The same over a data memory of any depth.
fn run_over_data<I: Memory + Drop, W: Watch>(
    heap: Global,
    setup: &Setup,
    instructions: I,
    data_memory: Stack,
    watch: &mut W,
) -> Result<String, Failure>
    ensures { RunAnswer I.Memory.means (stack_means data_memory)
        setup.now instructions (memory data_memory) result }
{
    match data_memory {
        Stack::Flat(memory) => run_over(heap, setup, instructions, memory, watch),
        Stack::One(memory) => run_over(heap, setup, instructions, memory, watch),
        Stack::Two(memory) => run_over(heap, setup, instructions, memory, watch),
        Stack::Three(memory) => run_over(heap, setup, instructions, memory, watch),
    }
}

/// The same over two memories of any depth.
pub(crate) fn run_over_stacks<W: Watch>(
    heap: Global,
    setup: &Setup,
    instructions: Stack,
    data_memory: Stack,
    watch: &mut W,
) -> Result<String, Failure>
    ensures { RunAnswer (stack_means instructions) (stack_means data_memory)
        setup.now (memory instructions) (memory data_memory) result }
{
    match instructions {
        Stack::Flat(memory) => run_over_data(heap, setup, memory, data_memory, watch),
        Stack::One(memory) => run_over_data(heap, setup, memory, data_memory, watch),
        Stack::Two(memory) => run_over_data(heap, setup, memory, data_memory, watch),
        Stack::Three(memory) => run_over_data(heap, setup, memory, data_memory, watch),
    }
}
