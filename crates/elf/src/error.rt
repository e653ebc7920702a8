//! Why nothing is read of a file.
ghost use Rattle.std.specs.Prelude.{◌≡◌, Some};
ghost use Rattle.elf.specs.Texts.{error_text};
ghost use Rattle.elf.specs.declared.error.ReadError.TheVariants.{Faulty, OutOfMemory};

use crate::fault::Fault;
use std::alloc::AllocError;
use std::error::Error;
use std::fmt;

/// A file has a fault, or there is no memory for what it loads.
#[derive(Clone, Copy, PartialEq, Eq, Debug)]
pub enum ReadError {
    Faulty(Fault),
    OutOfMemory(AllocError),
}

impl fmt::Display for ReadError {
    ghost output = { λ error. Some (error_text error) };

    fn fmt<W: fmt::Write>(&self, f: &mut fmt::Formatter<W>) -> fmt::Result {
        match self {
            ReadError::Faulty(fault) => write!(f, "{fault}"),
            ReadError::OutOfMemory(_) => f.write_str("there is not enough memory"),
        }
    }
}

impl Error for ReadError {}

impl From<Fault> for ReadError {
    ghost from_gives = { λ fault error. error ≡ Faulty fault };

    fn from(fault: Fault) -> ReadError {
        ReadError::Faulty(fault)
    }
}

impl From<AllocError> for ReadError {
    ghost from_gives = { λ failed error. error ≡ OutOfMemory failed };

    fn from(failed: AllocError) -> ReadError {
        ReadError::OutOfMemory(failed)
    }
}
