//! Who hears a machine's clocks.
ghost use Rattle.std.specs.Prelude.{◌≡◌, Bool, false};
ghost use Rattle.clocking.specs.declared.state.Event.{Event};

use clocking::state::Event;

/// Who hears each clock that a machine makes, once, when it is made.
pub trait Listener {
    /// What it does to the listener to hear a clock.
    ghost heard: { Self → Event → Self → Type 0 };

    /// The listener has no room for a clock.
    ghost full: { Self → Bool };

    /// Hears a clock. A machine makes none for a listener that is full.
    fn hear(&mut self, event: &Event)
        ensures { full self.old ≡ false → heard self.old event.now self.new };

    /// Whether it has no room: then no clock is made.
    fn is_full(&self) -> bool
        ensures { result ≡ full self.now };
}
