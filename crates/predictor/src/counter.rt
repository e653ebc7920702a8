//! A saturating counter.
ghost use Rattle.std.specs.Prelude.{◌≡◌, ◌≤◌};
ghost use Rattle.predictor.specs.Counting.{value_after, is_high};

/// A number from 0 to 3 that counts up and down, and stays where it is at the end of the range.
#[derive(Clone, Copy, PartialEq, Eq, Debug)]
pub struct Counter {
    /// From 0 to 3.
    pub value: u8,
    ghost range: { value ≤ 3 },
}

impl Counter {
    /// Whether it stands in the upper half, at 2 or 3.
    pub fn is_high(self) -> bool
        ensures { result ≡ is_high self.value }
    {
        self.value >= 2
    }

    /// The counter one step up or down.
    pub fn after(self, up: bool) -> Counter
        ensures { result.value ≡ value_after self.value up }
    {
        let value = if up {
            (self.value + 1).min(3)
        } else {
            self.value.saturating_sub(1)
        };
        Counter { value }
    }
}
