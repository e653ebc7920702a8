//! What a program prints at its end.
ghost use Rattle.std.specs.Prelude.{Some};
ghost use Rattle.ending.specs.Messages.{message_text};

use base::refusal::Refusal;
use std::fmt;

/// What a program prints at its end. No memory is asked for to print it.
#[derive(Drop)]
pub enum Message {
    /// A text that was made.
    Text(String),
    /// A line that was made, and its end.
    Line(String),
    /// A text that stands in the program.
    Fixed(&'static str),
    /// The line of a refusal.
    Refused(Refusal),
}

impl fmt::Display for Message {
    ghost output = { λ message. Some (message_text message) };

    fn fmt<W: fmt::Write>(&self, f: &mut fmt::Formatter<W>) -> fmt::Result {
        match self {
            Message::Text(text) => f.write_str(text.as_str()),
            Message::Line(line) => writeln!(f, "{line}"),
            Message::Fixed(text) => f.write_str(text),
            Message::Refused(why) => writeln!(f, "{why}"),
        }
    }
}
