//! What a clock counts.
ghost use Rattle.std.specs.Prelude.{◌≡◌, ◌≤◌};
ghost use Rattle.clocking.specs.Counting.{occupancy, in_flight_count, if_rolled, dropped_count};

use clocking::latch::{Latch, Latches};
use clocking::stage::Flow;

/// How many instructions a latch holds.
#[inline(always)]
fn occupancy<T: Copy>(latch: &Latch<T>) -> u32
    ensures is { result ≡ occupancy latch.now }
    ensures bound { result ≤ 1 }
{
    match *latch {
        Latch::Empty => 0,
        Latch::Faulting(_) | Latch::Full(_) => 1,
    }
}

/// How many instructions are in flight.
pub fn in_flight_count(latches: &Latches) -> u32
    ensures { result ≡ in_flight_count latches.now }
{
    occupancy(&latches.d) + occupancy(&latches.x) + occupancy(&latches.m) + occupancy(&latches.w)
}

/// How many instructions of a latch a rollback drops.
#[inline(always)]
fn if_rolled<T: Copy>(flow: Flow, latch: &Latch<T>) -> u32
    ensures is { result ≡ if_rolled flow (occupancy latch.now) }
    ensures bound { result ≤ 1 }
{
    match flow {
        Flow::RollsBack => occupancy(latch),
        Flow::Moves | Flow::Stalls => 0,
    }
}

/// How many instructions are dropped: a rollback from data drops X, and any rollback D.
#[inline(always)]
pub fn dropped_count(latches: &Latches, completes: Flow, execute: Flow) -> u32
    ensures { result ≡ dropped_count latches.now completes execute }
{
    if_rolled(completes, &latches.x) + if_rolled(execute, &latches.d)
}
