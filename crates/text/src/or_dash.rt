//! A value, or a hyphen.
ghost use Rattle.text.specs.Columns.{or_dash};

use std::fmt;

/// A value as it is shown, or `-` for none.
#[derive(Clone, Copy)]
pub struct OrDash<T>(pub Option<T>);

impl<T: fmt::Display> fmt::Display for OrDash<T> {
    ghost output = { λ x. or_dash T.output x.0 };

    fn fmt<W: fmt::Write>(&self, f: &mut fmt::Formatter<W>) -> fmt::Result {
        match &self.0 {
            Some(value) => write!(f, "{value}"),
            None => f.write_str("-"),
        }
    }
}
