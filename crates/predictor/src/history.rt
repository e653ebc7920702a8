//! A history of outcomes.
ghost use Rattle.std.specs.Prelude.{◌≡◌};
ghost use Rattle.predictor.specs.Counting.{history_after};

/// The latest eight outcomes, as the digits of a binary number: 1 for taken, the newest lowest.
#[derive(Clone, Copy, PartialEq, Eq, Debug)]
pub struct History {
    pub bits: u8,
}

impl History {
    /// It is 0 at first.
    pub fn new() -> History
        ensures { result.bits ≡ 0 }
    {
        History { bits: 0 }
    }

    /// One outcome more; the oldest is forgotten.
    pub fn push(&mut self, taken: bool)
        ensures { self.new.bits ≡ history_after self.old.bits taken }
    {
        self.bits = (self.bits << 1) + u8::from(taken);
    }
}
