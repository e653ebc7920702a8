//! The token that a held machine hands out.
ghost use Rattle.std.specs.Prelude.{◌≡◌, true};
ghost use Rattle.pipeline.specs.Tokens.{fresh};

/// A token bears the serial of the machine that is held. It cannot be forgotten: only a release spends it, of that machine or
/// of another with the same serial, so the serials of machines ought to differ.
pub struct HoldToken {
    serial: u16,
    spent: bool,
}

impl Drop for HoldToken {
    fn drop(self)
        requires { self.spent ≡ true }
    {
        let HoldToken {
            serial: _,
            spent: _,
        } = self;
    }
}

impl HoldToken {
    pub(crate) fn new(serial: u16) -> HoldToken
        ensures { result ≡ fresh serial }
    {
        HoldToken {
            serial,
            spent: false,
        }
    }

    /// The serial that it bears.
    pub fn serial(&self) -> u16
        ensures { result ≡ self.now.serial }
    {
        self.serial
    }

    pub(crate) fn spend(self) {
        let mut token = self;
        token.spent = true;
    }
}
