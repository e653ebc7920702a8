//! What words issue, remembered.
ghost use Rattle.std.specs.Prelude.{◌≡◌};
ghost use Rattle.rv32i_words.specs.Issues.{issued};

use crate::decoding::issue;
use rv32i::cause::Cause;
use rv32i::micro_op::MicroOp;
use std::marker::Model;

/// A word with what it issues.
#[derive(Clone, Copy)]
struct Entry {
    word: u32,
    answer: Result<MicroOp, Cause>,
}

impl Model for Entry {
    ghost use Rattle.std.specs.Prelude.{◌≡◌, ℕ, Result};
    ghost use Rattle.std.proofs.Common.{ap, sym};
    ghost use Rattle.rv32i.specs.declared.cause.Cause.{Cause};
    ghost use Rattle.rv32i.specs.declared.instruction.Instruction.{Instruction};
    ghost use Rattle.rv32i_words.specs.Issues.{issued};

    ghost Value = { ℕ };

    ghost view = { λ e. e.word };

    ghost invariant = { λ e. e.answer ≡ issued e.word };

    ghost inverse = { λ w. record { word = w; answer = issued w } };

    ghost inverse_ok = { λ e h.
        ap (λ (a : Result Instruction Cause). record e { answer = a }) (sym h) };
}

impl Entry {
    /// The word's.
    #[tactic(auto, using(rv32i::proofs::Given::given))]
    fn new(word: u32) -> Entry
        ensures { result ≡ word }
    {
        Entry {
            word,
            answer: issue(word),
        }
    }

    /// Holds that word instead.
    #[inline(never)]
    fn remember(&mut self, word: u32)
        ensures { self.new ≡ word }
    {
        *self = Entry::new(word);
    }
}

/// How many words a memo holds.
const ENTRIES: usize = 1024;

/// What the words that were fetched last issue: 1024 entries, a word's told by its address over 4, so that it forgets a
/// word where another comes from an address 4096 above or below. It changes no answer, only the time until it is there.
#[derive(Drop)]
pub struct Memo {
    entries: [Entry; ENTRIES],
}

impl Model for Memo {
    ghost Value = { Unit {0} };

    ghost view = { λ _. tt };
}

impl Memo {
    /// One that remembers no more than what the word 0 issues.
    pub fn new() -> Memo {
        Memo {
            entries: [Entry::new(0); ENTRIES],
        }
    }

    /// What the word at an address issues, or why it issues none; taken apart only where it is not the word that was
    /// remembered there.
    #[inline(always)]
    pub fn issue(&mut self, address: u32, word: u32) -> &Result<MicroOp, Cause>
        ensures { result.now ≡ issued word }
    {
        let entry = &mut self.entries[address as usize / 4 % ENTRIES];
        if entry.word != word {
            entry.remember(word);
        }
        &entry.answer
    }
}
