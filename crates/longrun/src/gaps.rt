//! Gaps between retirements.
ghost use Rattle.std.specs.Prelude.{◌≡◌, false, [], ◌∷◌};
ghost use Rattle.pipeline.specs.Calls.{retired_entries};
ghost use Rattle.longrun.specs.Gaps.{none_yet, gap_to, gaps_after};

use clock::listener::Listener;
use clocking::state::Event;
use pipeline::machine::RetiredAt;

/// The gaps of a run: how many clocks passed from loading to the first retirement, and from each to the next.
#[derive(Clone, Copy, PartialEq, Eq, Debug)]
pub struct Gaps {
    /// The clock of the latest retirement; 0 before the first.
    latest: u32,
    /// The longest gap that is finished; 0 with none.
    // 0 for none, as it is printed
    longest: u32,
}

impl Gaps {
    /// Nothing has retired yet.
    pub fn new() -> Gaps
        ensures { result ≡ none_yet }
    {
        Gaps {
            latest: 0,
            longest: 0,
        }
    }

    /// The longest gap that is finished; 0 with none.
    pub fn longest(&self) -> u32
        ensures { result ≡ self.now.longest }
    {
        self.longest
    }

    /// A retirement ends the gap since the latest.
    fn end(&mut self, clock: u32)
        ensures { self.new ≡ gap_to self.old clock }
    {
        let before = *self;
        *self = Gaps {
            latest: clock,
            longest: before.longest.max(clock.saturating_sub(before.latest)),
        };
    }

    /// The next retirements, in order.
    pub fn note(&mut self, retired: &[RetiredAt])
        ensures { self.new ≡ gaps_after self.old retired.now }
    {
        for record in retired {
            self.end(record.clock);
        }
    }
}

impl Listener for Gaps {
    ghost heard = { λ g e k. k ≡ gaps_after g (retired_entries (e ∷ [])) };

    ghost full = { λ _. false };

    /// A clock in which something retires ends the gap since the latest.
    #[inline(always)]
    fn hear(&mut self, event: &Event) {
        if event.retirement.is_some() {
            self.end(event.clock.clock);
        }
    }

    /// There is always room, since nothing is kept but the gaps.
    #[inline(always)]
    fn is_full(&self) -> bool {
        false
    }
}
