//! The two logs that a machine's clocks go to.
ghost use Rattle.std.specs.Prelude.{◌≡◌, [], ◌∷◌, length, false};
ghost use Rattle.base.specs.Logs.{room};
ghost use Rattle.pipeline.specs.Calls.{empty_logs, is_full, with_events};
ghost use Rattle.pipeline.specs.Logged.{logs, SameSlots, Adds};

use crate::machine::RetiredAt;
use base::log::Log;
use clock::listener::Listener;
use clocking::state::{ClockRecord, Event};

/// What retired, and the clocks, each in slots that the caller lends.
#[derive(Drop)]
pub struct Journal<'a> {
    pub retirements: Log<'a, RetiredAt>,
    pub clocks: Log<'a, ClockRecord>,
}

impl<'a> Journal<'a> {
    /// Two empty logs over the caller's slots, which hold what they held until they are filled.
    pub fn new(
        retired_slots: &'a mut [RetiredAt],
        clock_slots: &'a mut [ClockRecord],
    ) -> Journal<'a>
        ensures empty { logs result ≡ empty_logs retired_slots.old clock_slots.old }
        ensures rooms { (room result.retirements ≡ length retired_slots.old)
            × (room result.clocks ≡ length clock_slots.old) }
        ensures lent { (result.retirements.slots.ghost_name ≡ retired_slots.entry.ghost_name)
            × (result.clocks.slots.ghost_name ≡ clock_slots.entry.ghost_name) }
    {
        Journal {
            retirements: Log::new(retired_slots),
            clocks: Log::new(clock_slots),
        }
    }

    /// Adds the records of a clock, for which there is room.
    fn record(&mut self, event: Event)
        requires { is_full (logs self.old) ≡ false }
        ensures adds { logs self.new ≡ with_events (logs self.old) (event ∷ []) }
        ensures slots { SameSlots self.old self.new }
    {
        if let Some(retirement) = event.retirement {
            let retired = RetiredAt {
                clock: event.clock.clock,
                retired: retirement.retired,
            };
            self.retirements.push(retired).unwrap();
        }
        self.clocks.push(event.clock).unwrap();
    }
}

impl Listener for Journal<'_> {
    ghost heard = { λ j e k. Adds j (e ∷ []) k };

    ghost full = { λ j. is_full (logs j) };

    /// Adds the records of a clock, where each of the two has a slot left.
    fn hear(&mut self, event: &Event) {
        if !self.is_full() {
            self.record(*event);
        }
    }

    /// Whether one of the two has no slot left.
    fn is_full(&self) -> bool {
        self.retirements.is_full() || self.clocks.is_full()
    }
}
