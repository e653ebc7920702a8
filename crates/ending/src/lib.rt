//! With what a program ends: what it prints, where, and its status.
#![tactic(auto)]

ghost use Rattle.std.specs.Prelude.{◌≡◌};
ghost use Rattle.ending.specs.Endings.{EndingOf};

mod message;
#[cfg(test)]
mod tests;

use base::failure::Failure;
pub use message::Message;
use std::alloc::AllocError;
use std::io;
use std::process::ExitCode;

/// Where a program prints.
#[derive(Clone, Copy, PartialEq, Eq, Debug)]
pub enum Stream {
    /// Standard output.
    Output,
    /// Standard error.
    Error,
}

/// What a program prints at its end, and the status that it ends with.
#[derive(Drop)]
pub struct Ending {
    pub message: Message,
    pub stream: Stream,
    pub status: u8,
}

impl Ending {
    /// The end with this message, printed there, and this status.
    pub fn new(message: Message, stream: Stream, status: u8) -> Ending
        ensures { result ≡ record { message = message; stream = stream; status = status } }
    {
        Ending {
            message,
            stream,
            status,
        }
    }

    /// Prints the message where it belongs, and gives the status.
    pub fn print(&self, rt: &(impl Print + Eprint)) -> io::Result<ExitCode> {
        let message = &self.message;
        match self.stream {
            Stream::Output => print!(rt; "{message}")?,
            Stream::Error => eprint!(rt; "{message}")?,
        }
        Ok(ExitCode::from(self.status))
    }
}

/// The end of a run with this answer, on standard output: its text and status 0, or the line of a refusal and the status that a
/// refusal has. Where there was no memory for the answer, there is no end either.
pub fn ending_of(answer: Result<String, Failure>, refused: u8) -> Result<Ending, AllocError>
    ensures { EndingOf answer refused result }
{
    match answer {
        Ok(text) => Ok(Ending::new(Message::Text(text), Stream::Output, 0)),
        Err(Failure::Refused(why)) => Ok(Ending::new(
            Message::Refused(why),
            Stream::Output,
            refused,
        )),
        Err(Failure::OutOfMemory(error)) => Err(error),
    }
}
