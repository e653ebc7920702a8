//! The data stage: M goes to W, with the data memory's answer.
ghost use Rattle.std.specs.Prelude.{◌≡◌, Some};
ghost use Rattle.memory.specs.Meaning.{of_read, of_write};
ghost use Rattle.clocking.specs.Data.{take_reply, completes_with};
ghost use Rattle.clocking.specs.declared.latch.Latch.TheVariants.{Empty};
ghost use Rattle.clocking.specs.declared.stage.Flow.TheVariants.{Stalls};
ghost use Rattle.clock.specs.Data.{DataDone};

use base::bus::Request;
use clocking::latch::{Completed, Executed, Latch};
use clocking::stage::Flow;
use memory::{Memory, Unserved};
use rv32i::effect::{loaded, request};
use sequential::record::Stop;

/// An instruction goes to W with its value.
#[inline(always)]
fn complete(e: &Executed, value: u32, w: &mut Latch<Completed>) -> Flow
    ensures w { w.new ≡ (completes_with e.now value).w }
    ensures flow { result ≡ (completes_with e.now value).flow }
{
    *w = Latch::Full(Completed {
        address: e.address,
        word: e.word,
        rd: e.rd,
        value,
        outcome: e.outcome,
    });
    Flow::Moves
}

/// M stalls while the memory says Wait.
#[inline(always)]
fn wait(w: &mut Latch<Completed>) -> Flow
    ensures w { w.new ≡ Empty }
    ensures flow { result ≡ Stalls }
{
    *w = Latch::Empty;
    Flow::Stalls
}

/// M by the answer to its read.
#[inline(always)]
fn after_read(e: &Executed, answer: Result<u32, Unserved>, w: &mut Latch<Completed>) -> Flow
    ensures w { w.new ≡ (take_reply e.now (Some (of_read answer))).w }
    ensures flow { result ≡ (take_reply e.now (Some (of_read answer))).flow }
{
    match answer {
        Ok(word) => complete(e, loaded(e.access, e.result, word), w),
        Err(Unserved::Wait) => wait(w),
        Err(Unserved::Outside) => complete(e, e.result, w),
    }
}

/// M by the answer to its write.
#[inline(always)]
fn after_write(e: &Executed, answer: Result<(), Unserved>, w: &mut Latch<Completed>) -> Flow
    ensures w { w.new ≡ (take_reply e.now (Some (of_write answer))).w }
    ensures flow { result ≡ (take_reply e.now (Some (of_write answer))).flow }
{
    match answer {
        Err(Unserved::Wait) => wait(w),
        Ok(()) | Err(Unserved::Outside) => complete(e, e.result, w),
    }
}

/// A fault goes to W and rolls back; M stalls while the memory says Wait; all else goes to W. The memory serves the request
/// of M, or idles.
#[inline(always)]
#[tactic(auto, using(crate::proofs::DataAsked::data_idle, crate::proofs::DataAsked::data_faults, crate::proofs::DataAsked::data_free, crate::proofs::DataAsked::data_asked))]
pub fn data_stage<D: Memory>(
    data_memory: &mut D,
    m: &Latch<Executed>,
    w: &mut Latch<Completed>,
) -> Flow
    ensures { DataDone D.Memory.means m.now data_memory.old data_memory.new w.new result }
{
    match m {
        Latch::Empty => {
            data_memory.idle();
            *w = Latch::Empty;
            Flow::Moves
        }
        Latch::Faulting(stop) => {
            data_memory.idle();
            *w = Latch::Faulting(*stop);
            Flow::RollsBack
        }
        Latch::Full(e) => match request(data_memory.size(), e.access, e.result, e.b) {
            Err(cause) => {
                data_memory.idle();
                *w = Latch::Faulting(Stop {
                    address: e.address,
                    cause,
                });
                Flow::RollsBack
            }
            Ok(None) => {
                data_memory.idle();
                complete(e, e.result, w)
            }
            Ok(Some(Request::Read { address })) => after_read(e, data_memory.read(address), w),
            Ok(
                Some(
                    Request::Write {
                        address,
                        word,
                        lanes,
                    },
                ),
            ) => after_write(e, data_memory.write(address, word, lanes), w),
        },
    }
}
