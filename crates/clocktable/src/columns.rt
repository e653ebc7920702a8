//! A clock as text.
ghost use Rattle.std.specs.Prelude.{◌≡◌, Some};
ghost use Rattle.text.specs.Columns.{or_dash};
ghost use Rattle.text.specs.Hex.{hex, places};
ghost use Rattle.clocktable.specs.Tables.{address_text, letter_text, letters, noted, notes_text, stages_text, clock_text, counts_text};

use clocking::state::{ClockRecord, Notes};
use pipeline::machine::Totals;
use std::fmt;
use text::hex::Hex;
use text::or_dash::OrDash;

/// A letter, or nothing.
#[derive(Clone, Copy)]
struct Letter(Option<char>);

impl fmt::Display for Letter {
    ghost output = { λ x. Some (letter_text x.0) };

    fn fmt<W: fmt::Write>(&self, f: &mut fmt::Formatter<W>) -> fmt::Result {
        match self.0 {
            Some(letter) => f.write_char(letter),
            None => Ok(()),
        }
    }
}

/// The letters of what happened in a clock.
#[derive(Clone, Copy)]
struct Letters(Notes);

impl fmt::Display for Letters {
    ghost output = { λ x. Some (letters x.0) };

    fn fmt<W: fmt::Write>(&self, f: &mut fmt::Formatter<W>) -> fmt::Result {
        let notes = self.0;
        write!(
            f,
            "{}{}{}{}{}",
            Letter(notes.fetch_wait.then_some('f')),
            Letter(notes.hazard.then_some('h')),
            Letter(notes.data_wait.then_some('d')),
            Letter(notes.rollback.then_some('r')),
            Letter(notes.stop.then_some('s'))
        )
    }
}

/// Whether anything happened besides instructions moving on.
fn noted(notes: Notes) -> bool
    ensures { result ≡ noted notes }
{
    notes != Notes::NONE
}

/// A letter for each thing that happened in a clock, or `-` for nothing.
#[derive(Clone, Copy)]
pub struct NotesText(pub Notes);

impl fmt::Display for NotesText {
    ghost output = { λ x. Some (notes_text x.0) };

    fn fmt<W: fmt::Write>(&self, f: &mut fmt::Formatter<W>) -> fmt::Result {
        if noted(self.0) {
            write!(f, "{}", Letters(self.0))
        } else {
            f.write_str("-")
        }
    }
}

/// The address of what a latch holds, or `-` for nothing.
fn held(address: Option<u32>) -> OrDash<Hex>
    ensures { or_dash (λ x. Some (hex places x.0)) result.0 ≡ Some (address_text address) }
{
    OrDash(address.map(Hex))
}

/// The addresses in the four latches.
#[derive(Clone, Copy)]
struct StagesText(ClockRecord);

impl fmt::Display for StagesText {
    ghost output = { λ x. Some (stages_text x.0) };

    fn fmt<W: fmt::Write>(&self, f: &mut fmt::Formatter<W>) -> fmt::Result {
        let ClockRecord { d, x, m, w, .. } = self.0;
        write!(f, "{} {} {} {}", held(d), held(x), held(m), held(w))
    }
}

/// A clock: its number, the address to fetch, the latches' addresses and the notes.
#[derive(Clone, Copy)]
pub struct ClockText(pub ClockRecord);

impl fmt::Display for ClockText {
    ghost output = { λ x. Some (clock_text x.0) };

    fn fmt<W: fmt::Write>(&self, f: &mut fmt::Formatter<W>) -> fmt::Result {
        let ClockRecord {
            clock,
            f: fetch,
            notes,
            ..
        } = self.0;
        write!(
            f,
            "{clock} {} {} {}",
            Hex(fetch),
            StagesText(self.0),
            NotesText(notes)
        )
    }
}

/// How many instructions were fetched, retired and dropped.
#[derive(Clone, Copy)]
pub struct CountsText(pub Totals);

impl fmt::Display for CountsText {
    ghost output = { λ x. Some (counts_text x.0) };

    fn fmt<W: fmt::Write>(&self, f: &mut fmt::Formatter<W>) -> fmt::Result {
        let Totals {
            fetched,
            retired,
            dropped,
            ..
        } = self.0;
        write!(f, "fetched {fetched} retired {retired} dropped {dropped}")
    }
}
