//! Theorems about examples: the definitions, and the code, give the table of worked examples of the documents.
#![tactic(auto)]

ghost use Rattle.std.specs.Prelude.{◌≡◌};
ghost use Rattle.predictor.specs.Counting.{value_at, index_of};
ghost use Rattle.predictor.specs.States.{counters_of};
ghost use Rattle.predictor.specs.Tables.{counters_after};
ghost use Rattle.worked_examples.specs.Examples.{TableGiven, instructions, counts, longest, counts_of, taken};

use base::branch::Outcome;
use memory::{Flat, Memory};
use predictor::Predictor;
use predictor::bimodal::Bimodal;
use rv32i::instruction::Instruction;
use rv32i_words::decoding::decode;
use wait_states::WaitStates;
use write_buffer::WriteBuffer;

/// What the worked examples come to.
pub struct Worked {
    /// What seven words hold; none is an illegal word.
    pub instructions: [Option<Instruction>; 7],
    /// A branch's counter in a new `Bimodal` after one, two and three outcomes, all taken.
    pub counts: [u8; 3],
    /// The longest wait of a write buffer over two wait states over a flat memory.
    pub longest: u32,
}

/// An outcome of a branch that was taken.
fn taken(address: u32, target: u32) -> Outcome
    ensures { result ≡ taken address target }
{
    Outcome {
        address,
        target,
        taken: true,
    }
}

/// The predictor learns an outcome: the value of the branch's counter then.
fn learned(bimodal: &mut Bimodal, outcome: Outcome) -> u8
    ensures counter { result
        ≡ value_at (counters_after (counters_of bimodal.old) outcome) (index_of outcome.address) }
    ensures counters { counters_of bimodal.new ≡ counters_after (counters_of bimodal.old) outcome }
{
    bimodal.update(outcome);
    bimodal.counter(outcome.address).value
}

/// A new predictor learns three times that a branch was taken: the value of the branch's counter after each.
fn taken_thrice(address: u32, target: u32) -> [u8; 3]
    ensures { result ≡ counts_of (taken address target) }
{
    let mut bimodal = Bimodal::new();
    [
        learned(&mut bimodal, taken(address, target)),
        learned(&mut bimodal, taken(address, target)),
        learned(&mut bimodal, taken(address, target)),
    ]
}

/// The worked examples, done by the code, for a branch at any address to any target and a flat memory of any bytes: they come to
/// the table, and so do the definitions.
#[tactic(auto, using(crate::proofs::Given::table_given))]
pub fn table(address: u32, target: u32, bytes: Vec<u8>) -> Worked
    ensures given { TableGiven }
    ensures instructions { result.instructions ≡ instructions }
    ensures counts { result.counts ≡ counts }
    ensures longest { result.longest ≡ longest }
{
    let stack = WriteBuffer::new(WaitStates::new(Flat::new(bytes), 2));
    Worked {
        instructions: [
            decode(0x0020_0093),
            decode(0xfe00_9ee3),
            decode(0x41f1_d193),
            decode(0x0080_00ef),
            decode(0x0000_100f),
            decode(0x0200_9093),
            decode(0x0000_0000),
        ],
        counts: taken_thrice(address, target),
        longest: stack.longest(),
    }
}
