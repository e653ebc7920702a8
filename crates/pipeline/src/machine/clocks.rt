//! Clocks, one or many.
ghost use Rattle.std.specs.Prelude.{◌≡◌};
ghost use Rattle.clocking.specs.declared.state.Event.{Event};
ghost use Rattle.pipeline.specs.Calls.{Ticked, ClockInto, RunInto, HeardRun, refusal_at};
ghost use Rattle.pipeline.specs.Logged.{logs, SameSlots, Tested};

use crate::journal::Journal;
use crate::machine::{Machine, Run};
use base::refusal::Refusal;
use clock::cycle::checked_cycle;
use clock::listener::Listener;
use memory::Memory;
use predictor::Predictor;

impl<P: Predictor, I: Memory, D: Memory> Machine<P, I, D> {
    /// Whether a clock can be made. It is refused where the machine is held, it has stopped, the listener is full, or all
    /// clocks are spent, and the reason is the first of these.
    fn ready<L: Listener>(&self, listener: &L) -> Result<(), Refusal>
        ensures { Tested (L.Listener.full listener.now) self.now result }
    {
        if self.held {
            return Err(Refusal::Held);
        }
        if self.core.stopped.is_some() {
            return Err(Refusal::Stopped);
        }
        if listener.is_full() {
            return Err(Refusal::LogFull);
        }
        if self.core.counts.clocks == u32::MAX {
            return Err(Refusal::ClocksSpent);
        }
        Ok(())
    }

    /// One clock, which nothing refuses and the listener hears.
    #[inline(always)]
    fn tick<L: Listener>(&mut self, listener: &mut L)
        requires { refusal_at (L.Listener.full listener.old) self.old ≡ 0 }
        ensures { (e : Event)
            × Ticked P.Predictor.table I.Memory.means D.Memory.means self.old e self.new
            × L.Listener.heard listener.old e listener.new }
    {
        checked_cycle(&mut self.core, listener);
    }

    /// One clock. Its record is added to the journal, and that of what retires in it. A clock that is refused alters nothing:
    /// neither the machine nor any slot of the journal.
    pub fn clock(&mut self, journal: &mut Journal) -> Result<(), Refusal>
        ensures does { ClockInto P.Predictor.table I.Memory.means D.Memory.means
            (logs journal.old) self.old result (logs journal.new) self.new }
        ensures slots { SameSlots journal.old journal.new }
    {
        self.ready(journal)?;
        self.tick(journal);
        Ok(())
    }

    /// Up to `n` clocks in a row, of which nothing refuses the first.
    fn repeat<L: Listener>(&mut self, n: u32, listener: &mut L) -> Run
        requires { refusal_at (L.Listener.full listener.old) self.old ≡ 0 }
        ensures { HeardRun L.Listener.heard L.Listener.full
            P.Predictor.table I.Memory.means D.Memory.means
            listener.old self.old n result listener.new self.new }
    {
        for made in 0..n {
            if let Err(why) = self.ready(listener) {
                return Run {
                    made,
                    why: Some(why),
                };
            }
            self.tick(listener);
        }
        Run { made: n, why: None }
    }

    /// Up to `n` clocks in a row, each of which the listener hears when it is made: how many were made, and the refusal of the
    /// next where they are fewer. It is refused with 6 where the listener is full, and else as `run`.
    pub fn run_heard<L: Listener>(&mut self, n: u32, listener: &mut L) -> Run
        ensures { HeardRun L.Listener.heard L.Listener.full
            P.Predictor.table I.Memory.means D.Memory.means
            listener.old self.old n result listener.new self.new }
    {
        match self.ready(listener) {
            Ok(()) => self.repeat(n, listener),
            Err(why) => Run {
                made: 0,
                why: Some(why),
            },
        }
    }

    /// Up to `n` clocks in a row: how many were made, and the refusal of the next where they are fewer. The first test is
    /// made also where `n` is 0, and where it says no, its refusal is the reason.
    pub fn run(&mut self, n: u32, journal: &mut Journal) -> Run
        ensures does { RunInto P.Predictor.table I.Memory.means D.Memory.means
            (logs journal.old) self.old n result (logs journal.new) self.new }
        ensures slots { SameSlots journal.old journal.new }
    {
        self.run_heard(n, journal)
    }
}
