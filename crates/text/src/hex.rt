//! Hexadecimal numbers without leading zeros.
ghost use Rattle.std.specs.Prelude.{Some};
ghost use Rattle.text.specs.Hex.{hex, places};

use std::fmt;

/// A number that is shown in lower-case hexadecimal digits.
#[derive(Clone, Copy, PartialEq, Eq, Debug)]
pub struct Hex(pub u32);

impl fmt::Display for Hex {
    ghost output = { λ n. Some (hex places n.0) };

    #[tactic(auto, using(crate::proofs::Digits::digits_hex))]
    fn fmt<W: fmt::Write>(&self, f: &mut fmt::Formatter<W>) -> fmt::Result {
        let Hex(number) = *self;
        write!(f, "{number:x}")
    }
}
