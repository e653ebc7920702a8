//! With what the program timing ends. The status is 0 where it did what it was asked for, else 1.
ghost use Rattle.std.specs.Prelude.{[], ◌∷◌, ◌++◌, map, IfOk, string_bytes};
ghost use Rattle.ending.specs.Endings.{Ends, EndingOf};
ghost use Rattle.setup.specs.Messages.{fault_text};

use base::failure::Failure;
use ending::{Ending, Message, Stream, ending_of};
use setup::message::{HELP, fault_text};
use setup::options::Fault;
use std::alloc::{AllocError, Global};

/// The end of a run with this answer: what it prints and 0, or the line of a refusal and 1, on standard output. Where there was
/// no memory for the answer, there is no end either.
pub fn run_ending(answer: Result<String, Failure>) -> Result<Ending, AllocError>
    ensures { EndingOf answer 1 result }
{
    ending_of(answer, 1)
}

/// The end where help is asked for: the options, on standard output, and 0.
pub fn help_ending() -> Ending
    ensures { Ends HELP.now Stream.Output 0 result }
{
    Ending::new(Message::Fixed(HELP), Stream::Output, 0)
}

/// The end after a fault in these words: its message, on standard error, and 1.
pub fn fault_ending(heap: Global, words: &[String], fault: Fault) -> Result<Ending, AllocError>
    ensures { IfOk result
        (Ends (fault_text (map string_bytes words.now) fault ++ 10 ∷ []) Stream.Error 1) }
{
    let line = fault_text(heap, words, fault)?;
    Ok(Ending::new(Message::Line(line), Stream::Error, 1))
}
