//! The account of a run: what retired, how it ended, and what the registers and the memory hold then.
use seqtable::records::{RecordText, StopText};
use sequential::record::{Retired, Stop};
use std::alloc::{AllocError, Global};
use std::fmt::Write;
use text::hex::Hex;
use vectors::digest::Digest;

/// How many records are told in full; the others are in the digest.
const SHOWN: u32 = 8;

/// After how many records the digest is told again.
const PART: u32 = 256;

/// How many words that changed are told in full.
const CHANGED: u32 = 16;

/// What is told of a run so far.
#[derive(Drop)]
pub struct Account {
    text: String,
    retired: u32,
    digest: Digest,
    /// How many words of the memory are not what they were at first.
    changed: u32,
}

impl Account {
    /// Of a run in which nothing has retired.
    pub fn new(heap: Global) -> Account {
        Account {
            text: String::new(heap),
            retired: 0,
            digest: Digest::new(),
            changed: 0,
        }
    }

    /// Adds an instruction that retired.
    pub fn retire(&mut self, retired: Retired) -> Result<(), AllocError> {
        self.retired = self.retired.wrapping_add(1);
        self.digest = self
            .digest
            .word(retired.address)
            .word(retired.word)
            .word(retired.value);
        let number = self.retired;
        if number <= SHOWN {
            writeln!(self.text, "{number} {}", RecordText(retired))?;
        }
        if number % PART == 0 {
            writeln!(self.text, "digest {number} {:016x}", self.digest.0)?;
        }
        Ok(())
    }

    /// Adds how the run ended.
    pub fn end(&mut self, stop: Option<Stop>) -> Result<(), AllocError> {
        match stop {
            Some(stop) => write!(self.text, "stop {}", StopText(stop))?,
            None => self.text.push_str("limit reached")?,
        }
        writeln!(
            self.text,
            " retired {} digest {:016x}",
            self.retired, self.digest.0
        )
    }

    /// Adds the value of a register; there are eight to a line.
    pub fn register(&mut self, number: u32, value: u32) -> Result<(), AllocError> {
        if number % 8 == 0 {
            write!(self.text, "x{number}")?;
        }
        let end = if number % 8 == 7 { "\n" } else { "" };
        write!(self.text, " {}{end}", Hex(value))
    }

    /// Adds a word of the memory that is not what it was at first, if not too many were told.
    pub fn changed(&mut self, address: u32, word: u32) -> Result<(), AllocError> {
        self.changed = self.changed.wrapping_add(1);
        if self.changed > CHANGED {
            return Ok(());
        }
        writeln!(self.text, "{} {}", Hex(address), Hex(word))
    }

    /// Adds the digest of the memory, and how many of its words changed.
    pub fn memory(&mut self, digest: Digest) -> Result<(), AllocError> {
        writeln!(
            self.text,
            "memory {:016x} changed {}",
            digest.0, self.changed
        )
    }

    /// All that was told so far.
    pub fn text(&self) -> &str {
        self.text.as_str()
    }
}
