//! A run up to a number of clocks.
ghost use Rattle.std.specs.Prelude.{◌≡◌, ℕ};
ghost use Rattle.longrun.specs.LongRuns.{RanTo};
ghost use Rattle.longrun.specs.Watching.{Watched};

use crate::gaps::Gaps;
use memory::Memory;
use pipeline::machine::Machine;
use predictor::Predictor;

/// After how many clocks a watch is called.
const STRIDE: u32 = 256;

/// Watches how far a long run has come.
pub trait Watch {
    /// What a call with a number of clocks does to it.
    ghost hears: { Self → ℕ → Self → Type 0 };

    /// The clocks that the machine has made since it was loaded.
    fn made(&mut self, clocks: u32)
        ensures { hears self.old clocks self.new };
}

/// Watches nothing.
#[derive(Drop)]
pub struct Unwatched;

impl Watch for Unwatched {
    ghost hears = { λ before _ after. after ≡ before };

    fn made(&mut self, _clocks: u32) {}
}

/// Clocks a machine until it has made so many, or has stopped, and notes the gaps between retirements. A machine that is held
/// stays as it is. The watch is called with the machine's clocks after each 256 that are made here, and after the last.
pub fn run_to<P: Predictor, I: Memory, D: Memory, W: Watch>(
    machine: &mut Machine<P, I, D>,
    limit: u32,
    gaps: &mut Gaps,
    watch: &mut W,
)
    ensures ran { RanTo P.Predictor.table I.Memory.means D.Memory.means
        limit machine.old gaps.old machine.new gaps.new }
    ensures watched { Watched W.Watch.hears
        machine.old.core.counts.clocks machine.new.core.counts.clocks watch.old watch.new }
{
    let mut clocks = machine.counts().clocks;
    while clocks < limit && !machine.is_held() && machine.stopped().is_none() {
        let n = (limit - clocks).min(STRIDE);
        machine.run_heard(n, gaps);
        clocks = machine.counts().clocks;
        watch.made(clocks);
    }
}
