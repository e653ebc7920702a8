//! Records and stops as text.
ghost use Rattle.std.specs.Prelude.{Some};
ghost use Rattle.seqtable.specs.Records.{record_text, stop_text, end_text};

use rv32i::register::Register;
use sequential::record::{Retired, Stop};
use std::fmt;
use text::hex::Hex;
use text::or_dash::OrDash;

/// The record of a retired instruction: address, word, register and value.
#[derive(Clone, Copy)]
pub struct RecordText(pub Retired);

impl fmt::Display for RecordText {
    ghost output = { λ x. Some (record_text x.0) };

    fn fmt<W: fmt::Write>(&self, f: &mut fmt::Formatter<W>) -> fmt::Result {
        let Retired {
            address,
            word,
            rd,
            value,
        } = self.0;
        write!(
            f,
            "{} {} {} {}",
            Hex(address),
            Hex(word),
            OrDash(rd.map(Register::number)),
            Hex(value)
        )
    }
}

/// A stop: the cause's number and the address.
#[derive(Clone, Copy)]
pub struct StopText(pub Stop);

impl fmt::Display for StopText {
    ghost output = { λ x. Some (stop_text x.0) };

    fn fmt<W: fmt::Write>(&self, f: &mut fmt::Formatter<W>) -> fmt::Result {
        write!(f, "{} {}", self.0.cause.number(), Hex(self.0.address))
    }
}

/// How a run ended: the stop, or that the limit was met.
#[derive(Clone, Copy)]
pub struct EndText(pub Option<Stop>);

impl fmt::Display for EndText {
    ghost output = { λ x. Some (end_text x.0) };

    fn fmt<W: fmt::Write>(&self, f: &mut fmt::Formatter<W>) -> fmt::Result {
        match self.0 {
            Some(stop) => write!(f, "stop {}", StopText(stop)),
            None => f.write_str("limit"),
        }
    }
}
