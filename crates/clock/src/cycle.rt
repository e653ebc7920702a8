//! One clock.
ghost use Rattle.std.specs.Prelude.{◌≡◌, ◌<◌, false, None};
ghost use Rattle.clocking.specs.Clock.{Moved, Halted};
ghost use Rattle.clocking.specs.Counting.{Counted};
ghost use Rattle.clocking.specs.declared.latch.Completed.{Completed};
ghost use Rattle.clocking.specs.declared.latch.Executed.{Executed};
ghost use Rattle.clocking.specs.declared.latch.Latch.{Latch};
ghost use Rattle.clocking.specs.declared.state.Event.{Event};
ghost use Rattle.clock.specs.Decode.{rd_of, written_of};
ghost use Rattle.clock.specs.Cycle.{CycleHeard, decode_after, with_x};

use crate::counts::dropped_count;
use crate::data::data_stage;
use crate::decode::{InFlight, Written, decode_stage, rd_of};
use crate::execute::execute_stage;
use crate::fetch::fetch_stage;
use crate::listener::Listener;
use crate::prediction::teach;
use crate::record::{STOP, clock_record, notes};
use crate::write_back::{outcome_of, retirement_of, stop_of, write_back};
use clocking::counts::Counts;
use clocking::latch::{Latch, Latches};
use clocking::stage::Flow;
use clocking::state::{Core, Event, Notes};
use memory::Memory;
use predictor::Predictor;
use rv32i::register::Register;
use rv32i::registers::Registers;
use sequential::record::Stop;

/// Counts a clock, and the instructions that were fetched, retired and dropped in it.
#[inline(always)]
fn count(counts: &mut Counts, fetched: bool, retired: bool, gone: u32)
    requires { counts.old.clocks < 4294967295 }
    ensures { Counted counts.old fetched retired gone counts.new }
{
    counts.clocks += 1;
    counts.fetched += u32::from(fetched);
    counts.retired += u32::from(retired);
    counts.dropped = counts.dropped.wrapping_add(gone);
}

/// The machine stops: W is emptied, and both memories idle.
#[inline(never)]
fn halt<P: Predictor, I: Memory, D: Memory, L: Listener>(
    core: &mut Core<P, I, D>,
    stop: Stop,
    listener: &mut L,
)
    requires { core.old.counts.clocks < 4294967295 }
    ensures { (e : Event)
        × Halted P.Predictor.table I.Memory.means D.Memory.means stop core.old e core.new
        × (L.Listener.full listener.old ≡ false → L.Listener.heard listener.old e listener.new) }
{
    core.data_memory.idle();
    core.instructions.idle();
    core.stopped = Some(stop);
    count(&mut core.counts, false, false, 0);
    let clock = clock_record(core.counts.clocks, &core.latches, STOP);
    core.latches.w = Latch::Empty;
    listener.hear(&Event {
        clock,
        retirement: None,
    });
}

/// The decode stage, by the flows of M and X; `m` and `w` are of those latches as they were.
#[inline(always)]
fn decode(
    completes: Flow,
    executes: Flow,
    m: Option<Register>,
    w: Written,
    registers: &Registers,
    latches: &mut Latches,
) -> Flow
    ensures latches { (old_m : Latch Executed) (old_w : Latch Completed)
        → m ≡ rd_of old_m → w ≡ written_of old_w
        → latches.new ≡ with_x latches.old
        (decode_after completes executes old_m old_w registers.now latches.old).x }
    ensures flow { (old_m : Latch Executed) (old_w : Latch Completed)
        → m ≡ rd_of old_m → w ≡ written_of old_w
        → result ≡ (decode_after completes executes old_m old_w registers.now latches.old).flow }
{
    let in_flight = InFlight {
        flow: completes,
        x: &latches.m,
        m,
        answer: &latches.w,
        w,
        registers,
    };
    decode_stage(in_flight, &latches.d, executes, &mut latches.x)
}

/// W retires, and the rest moves on.
#[inline(always)]
fn advance<P: Predictor, I: Memory, D: Memory, L: Listener>(
    core: &mut Core<P, I, D>,
    listener: &mut L,
)
    requires { (core.old.stopped ≡ None) × (core.old.counts.clocks < 4294967295) }
    ensures { (e : Event)
        × Moved P.Predictor.table I.Memory.means D.Memory.means core.old e core.new
        × (L.Listener.full listener.old ≡ false → L.Listener.heard listener.old e listener.new) }
{
    let mut event = Event {
        clock: clock_record(core.counts.clocks + 1, &core.latches, Notes::NONE),
        retirement: retirement_of(&core.latches.w),
    };
    teach(&mut core.predictor, outcome_of(&core.latches.w));
    write_back(&mut core.registers, &core.latches.w);

    // what decode reads of M and W as they were
    let m = rd_of(&core.latches.m);
    let w = Written::of(&core.latches.w);

    let completes = data_stage(&mut core.data_memory, &core.latches.m, &mut core.latches.w);
    let executes = execute_stage(&core.latches.x, completes, &mut core.latches.m);
    let gone = dropped_count(&core.latches, completes, executes.flow);
    let decodes = decode(
        completes,
        executes.flow,
        m,
        w,
        &core.registers,
        &mut core.latches,
    );
    let fetch = fetch_stage(
        decodes,
        executes.redirect,
        &core.predictor,
        &mut core.instructions,
        &mut core.memo,
        &mut core.latches.f,
        &mut core.latches.d,
    );

    let retired = event.retirement.is_some();
    count(&mut core.counts, fetch.fetched, retired, gone);
    event.clock.notes = notes(completes, executes.flow, decodes, fetch.waits);
    listener.hear(&event);
}

/// One clock of the core, which the listener hears; whether it was made. A core that has stopped or
/// has made all its clocks stays as it is, and nothing is heard.
#[inline(always)]
pub fn checked_cycle<P: Predictor, I: Memory, D: Memory, L: Listener>(
    core: &mut Core<P, I, D>,
    listener: &mut L,
) -> bool
    ensures { CycleHeard P.Predictor.table I.Memory.means D.Memory.means
        L.Listener.heard L.Listener.full
        core.old listener.old result core.new listener.new }
{
    if core.stopped.is_some() || core.counts.clocks == u32::MAX {
        return false;
    }
    match stop_of(&core.latches.w) {
        Some(stop) => halt(core, stop, listener),
        None => advance(core, listener),
    }
    true
}
