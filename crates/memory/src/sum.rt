//! A memory of one of two kinds.
ghost use Rattle.memory.specs.Runs.{Replays};
ghost use Rattle.memory.specs.Laws.Sum.{sum_lawful};
ghost use Rattle.memory.specs.Sums.{sum_means};

use crate::{Memory, Unserved};
use base::bus::Lanes;
use either::{Either, for_both};

impl<A: Memory, B: Memory> Memory for Either<A, B> {
    ghost means = { sum_means A.Memory.means B.Memory.means };

    ghost obeys = { sum_lawful A.Memory.obeys B.Memory.obeys };

    #[inline(always)]
    fn read(&mut self, address: u32) -> Result<u32, Unserved> {
        for_both!(self, memory => memory.read(address))
    }

    #[inline(always)]
    fn write(&mut self, address: u32, word: u32, lanes: Lanes) -> Result<(), Unserved> {
        for_both!(self, memory => memory.write(address, word, lanes))
    }

    #[inline(always)]
    fn idle(&mut self) {
        for_both!(self, memory => memory.idle())
    }

    fn peek(&self, address: u32) -> Option<u8> {
        for_both!(self, memory => memory.peek(address))
    }

    fn longest(&self) -> u32 {
        for_both!(self, memory => memory.longest())
    }

    #[inline(always)]
    fn size(&self) -> u32 {
        for_both!(self, memory => memory.size())
    }
}

/// A theorem, with no code: what a memory of one of two kinds replies follows from the calls that
/// it was made, if it is so of each kind.
pub fn sum_replies_follow_calls<A: Memory, B: Memory>()
    ensures { Replays A.Memory.means → Replays B.Memory.means
        → Replays (sum_means A.Memory.means B.Memory.means) }
{}
