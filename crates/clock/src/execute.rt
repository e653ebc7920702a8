//! The execute stage: X goes to M, computed.
ghost use Rattle.std.specs.Prelude.{◌≡◌, None};
ghost use Rattle.rv32i.specs.Causes.{Gives};
ghost use Rattle.clocking.specs.Execute.{execute, execute_stage, stall};

use clocking::latch::{Decoded, Executed, Latch};
use clocking::stage::Flow;
use rv32i::cause::Cause;
use sequential::record::Stop;

/// The flow of X, and after a wrong guess the address to fetch.
#[derive(Clone, Copy)]
pub struct Executing {
    pub flow: Flow,
    pub redirect: Option<u32>,
}

impl From<Flow> for Executing {
    ghost from_gives = { λ flow e. e ≡ record { flow = flow; redirect = None } };

    /// With no wrong guess.
    #[inline(always)]
    fn from(flow: Flow) -> Executing {
        Executing {
            flow,
            redirect: None,
        }
    }
}

/// The instruction with its result, or its cause.
#[inline(always)]
pub fn execute(d: &Decoded) -> Result<Executed, Cause>
    ensures { Gives (execute d.now) result }
{
    let effect = d.instruction.execute(d.address, d.a, d.b)?;
    Ok(Executed {
        address: d.address,
        word: d.word,
        rd: d.rd,
        access: d.instruction.access(),
        result: effect.result,
        b: d.b,
        next: effect.next,
        outcome: effect.outcome,
    })
}

/// A latch before which nothing moves stalls, unless it is empty.
#[inline(always)]
pub(crate) fn stall<T: Copy>(latch: &Latch<T>) -> Flow
    ensures { result ≡ stall latch.now }
{
    match *latch {
        Latch::Empty => Flow::Moves,
        Latch::Faulting(_) | Latch::Full(_) => Flow::Stalls,
    }
}

/// X is dropped after a rollback and stalls while M stalls; else it goes to M, and rolls back what was fetched after it where
/// its true next address is not the guessed one.
#[inline(always)]
pub fn execute_stage(x: &Latch<Decoded>, flow: Flow, m: &mut Latch<Executed>) -> Executing
    ensures m { m.new ≡ (execute_stage m.old x.now flow).m }
    ensures flow { result.flow ≡ (execute_stage m.old x.now flow).flow }
    ensures redirect { result.redirect ≡ (execute_stage m.old x.now flow).redirect }
{
    match flow {
        Flow::RollsBack => {
            *m = Latch::Empty;
            Flow::RollsBack.into()
        }
        Flow::Stalls => stall(x).into(),
        Flow::Moves => match x {
            Latch::Empty => {
                *m = Latch::Empty;
                Flow::Moves.into()
            }
            Latch::Faulting(stop) => {
                *m = Latch::Faulting(*stop);
                Flow::Moves.into()
            }
            Latch::Full(d) => match execute(d) {
                Err(cause) => {
                    *m = Latch::Faulting(Stop {
                        address: d.address,
                        cause,
                    });
                    Flow::Moves.into()
                }
                Ok(e) => {
                    *m = Latch::Full(e);
                    if e.next == d.guess {
                        Flow::Moves.into()
                    } else {
                        Executing {
                            flow: Flow::RollsBack,
                            redirect: Some(e.next),
                        }
                    }
                }
            },
        },
    }
}
