//! The fetch stage: the word at F goes to D, and F on to the guess.
ghost use Rattle.std.specs.Prelude.{◌≡◌, Some, is_some};
ghost use Rattle.memory.specs.Meaning.{of_read};
ghost use Rattle.clocking.specs.Counting.{is_wait};
ghost use Rattle.clocking.specs.Ports.{arrival};
ghost use Rattle.clocking.specs.Fetch.{fill_d};
ghost use Rattle.clock.specs.Fetch.{FetchDone};

use crate::prediction::guess;
use clocking::latch::{Fetched, Latch};
use clocking::stage::Flow;
use memory::{Memory, Unserved};
use predictor::Predictor;
use rv32i_words::memo::Memo;
use sequential::fetch::fetchable;
use sequential::record::Stop;

/// Whether a fetch put an instruction into D, and whether the instruction memory said Wait.
#[derive(Clone, Copy)]
pub struct Fetching {
    pub fetched: bool,
    pub waits: bool,
}

impl Fetching {
    /// Nothing was put into D, and nothing waits.
    const NONE: Fetching = Fetching {
        fetched: false,
        waits: false,
    };
}

/// The word that the memory answers goes into D with the instruction that it issues, and F on to its guess.
#[inline(always)]
fn fill_d<P: Predictor>(
    answer: Result<u32, Unserved>,
    predictor: &P,
    memo: &mut Memo,
    f: &mut u32,
    d: &mut Latch<Fetched>,
) -> Fetching
    ensures f { f.new ≡ (fill_d f.old
        (arrival P.Predictor.table predictor.now f.old (Some (of_read answer)))).f }
    ensures d { d.new ≡ (fill_d f.old
        (arrival P.Predictor.table predictor.now f.old (Some (of_read answer)))).d }
    ensures fetched { result.fetched
        ≡ is_some (arrival P.Predictor.table predictor.now f.old (Some (of_read answer))) }
    ensures waits { result.waits ≡ is_wait (Some (of_read answer)) }
{
    match answer {
        Ok(word) => {
            let address = *f;
            let issued = memo.issue(address, word);
            let goes_on = guess(predictor, address, issued);
            *d = Latch::Full(Fetched {
                address,
                word,
                issued: *issued,
                guess: goes_on,
            });
            *f = goes_on;
            Fetching {
                fetched: true,
                waits: false,
            }
        }
        Err(why) => {
            *d = Latch::Empty;
            Fetching {
                fetched: false,
                waits: why == Unserved::Wait,
            }
        }
    }
}

/// After a rollback D is empty, and F is where the redirect says; while D stalls, F stays; else what arrives goes into D, and
/// F on to its guess. The memory reads the word at F, or idles.
#[inline(always)]
#[tactic(auto, using(crate::proofs::FetchAsked::fetch_passes, crate::proofs::FetchAsked::fetch_faults, crate::proofs::FetchAsked::fetch_asked))]
pub fn fetch_stage<P: Predictor, I: Memory>(
    flow: Flow,
    redirect: Option<u32>,
    predictor: &P,
    instructions: &mut I,
    memo: &mut Memo,
    f: &mut u32,
    d: &mut Latch<Fetched>,
) -> Fetching
    ensures { FetchDone P.Predictor.table I.Memory.means predictor.now f.old d.old flow redirect
        instructions.old instructions.new (record { f = f.new; d = d.new }) result }
{
    match flow {
        Flow::RollsBack => {
            instructions.idle();
            *d = Latch::Empty;
            if let Some(next) = redirect {
                *f = next;
            }
            Fetching::NONE
        }
        Flow::Stalls => {
            instructions.idle();
            Fetching::NONE
        }
        Flow::Moves => match fetchable(instructions.size(), *f) {
            Err(cause) => {
                instructions.idle();
                *d = Latch::Faulting(Stop { address: *f, cause });
                *f = f.wrapping_add(4);
                Fetching {
                    fetched: true,
                    waits: false,
                }
            }
            Ok(()) => fill_d(instructions.read(*f), predictor, memo, f, d),
        },
    }
}
