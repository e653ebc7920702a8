//! The record of a clock.
ghost use Rattle.std.specs.Prelude.{◌≡◌, false, ◌&&◌};
ghost use Rattle.clocking.specs.Clock.{clock_record};
ghost use Rattle.clock.specs.Record.{AddressOf};
ghost use Rattle.clocking.specs.Counting.{stalls, moves, rolls_back};

use clocking::latch::{Latch, Latches};
use clocking::stage::Flow;
use clocking::state::{ClockRecord, Notes};

/// The address of what a latch holds; where it is full, `address` gives it.
fn address_of<T: Copy, F: FnOnce(T) -> u32>(latch: &Latch<T>, address: F) -> Option<u32>
    requires { F.IsAlwaysCallable address }
    ensures { AddressOf (F.post address) latch.now result }
{
    match *latch {
        Latch::Empty => None,
        Latch::Faulting(stop) => Some(stop.address),
        Latch::Full(x) => Some(address(x)),
    }
}

/// The record of the clock of that number, which began with those latches.
pub fn clock_record(clock: u32, latches: &Latches, notes: Notes) -> ClockRecord
    ensures { result ≡ clock_record clock latches.now notes }
{
    ClockRecord {
        clock,
        f: latches.f,
        d: address_of(&latches.d, |x| x.address),
        x: address_of(&latches.x, |x| x.address),
        m: address_of(&latches.m, |x| x.address),
        w: address_of(&latches.w, |x| x.address),
        notes,
    }
}

/// The notes of a clock that stops the machine.
pub const STOP: Notes = Notes {
    stop: true,
    ..Notes::NONE
};

/// The notes of a clock that moves on, by the flows of M, X and D and whether the instruction memory said Wait. A hazard
/// keeps D where X moves.
pub fn notes(completes: Flow, execute: Flow, decode: Flow, fetch_wait: bool) -> Notes
    ensures { result ≡ record {
      fetch_wait = fetch_wait;
      hazard = moves execute && stalls decode;
      data_wait = stalls completes;
      rollback = rolls_back decode;
      stop = false;
    } }
{
    Notes {
        fetch_wait,
        hazard: execute == Flow::Moves && decode == Flow::Stalls,
        data_wait: completes == Flow::Stalls,
        rollback: decode == Flow::RollsBack,
        stop: false,
    }
}
