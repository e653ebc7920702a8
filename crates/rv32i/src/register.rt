//! A register's number.
ghost use Rattle.std.specs.Prelude.{◌<◌};

/// One of the registers x0 to x31.
#[derive(Clone, Copy, PartialEq, Eq, Debug)]
pub struct Register {
    pub(crate) number: u8,
    ghost ok: { number < 32 },
}
