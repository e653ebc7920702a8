//! Loading a machine.
ghost use Rattle.base.specs.Refusals.{number};
ghost use Rattle.base.specs.declared.refusal.Refusal.TheVariants.{BadStart};
ghost use Rattle.memory.specs.Meaning.{Checked};
ghost use Rattle.pipeline.specs.Calls.{Loaded, load_fits};
ghost use Rattle.pipeline.specs.Theorem.{Agrees};

use crate::machine::Machine;
use base::refusal::Refusal;
use clocking::counts::Counts;
use clocking::latch::{Latch, Latches};
use clocking::state::Core;
use memory::{Memory, is_within};
use predictor::Predictor;
use rv32i::registers::Registers;
use rv32i_words::memo::Memo;

/// Whether a machine can be loaded so; refused where the serial is above 65535, or the start no multiple of 4 or outside the
/// instruction memory.
pub fn check<I: Memory>(serial: u32, start: u32, instructions: &I) -> Result<(), Refusal>
    ensures { Checked (load_fits serial (I.Memory.means.view.size instructions.now) start)
        (number BadStart) result }
{
    if serial <= 65535 && is_within(instructions.size(), start) {
        Ok(())
    } else {
        Err(Refusal::BadStart)
    }
}

/// A machine that is about to fetch at the start address, with empty latches and zero registers. A serial or a start that
/// `check` refuses counts as 0.
pub fn load<P: Predictor, I: Memory, D: Memory>(
    serial: u32,
    start: u32,
    predictor: P,
    instructions: I,
    data_memory: D,
) -> Machine<P, I, D>
    ensures starts { Loaded (I.Memory.means.view.size instructions)
        serial start predictor instructions data_memory result }
    ensures agrees { Agrees P.Predictor.table I.Memory.means D.Memory.means result }
{
    let f = if is_within(instructions.size(), start) {
        start
    } else {
        0
    };
    Machine {
        serial: u16::try_from(serial).unwrap_or(0),
        held: false,
        core: Core {
            registers: Registers::new(),
            latches: Latches {
                f,
                d: Latch::Empty,
                x: Latch::Empty,
                m: Latch::Empty,
                w: Latch::Empty,
            },
            counts: Counts {
                clocks: 0,
                fetched: 0,
                retired: 0,
                dropped: 0,
            },
            stopped: None,
            memo: Memo::new(),
            predictor,
            instructions,
            data_memory,
        },
    }
}
