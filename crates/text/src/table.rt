//! Tables: a head, and a line for each record.
ghost use Rattle.std.specs.Prelude.{◌≡◌, ℕ, ◌++◌, List, OnOk, string_bytes};
ghost use Rattle.text.specs.Lines.{lines};

use std::alloc::AllocError;
use std::fmt::Write;

/// How a record is shown in a line of a table.
pub trait Columns {
    type Record;

    /// The line of a record that has this number in its table.
    ghost line: { ℕ → Self.Record → List ℕ };

    /// Writes that line behind a text.
    fn write_line(text: &mut String, number: usize, record: &Self::Record) -> Result<(), AllocError>
        ensures { OnOk result (string_bytes text.new
            ≡ string_bytes text.old ++ line number «record».now) };
}

/// Writes a table behind a text: the head, and the lines of the records, numbered from 1.
#[tactic(auto, unfolding(crate::specs::Lines::lines))]
pub fn write_table<C: Columns>(
    text: &mut String,
    head: &str,
    records: &[C::Record],
) -> Result<(), AllocError>
    ensures { OnOk result (string_bytes text.new
        ≡ string_bytes text.old ++ (head.now ++ lines C.line 1 records.now)) }
{
    text.push_str(head)?;
    for (i, record) in records.iter().enumerate() {
        C::write_line(text, i + 1, record)?;
    }
    Ok(())
}
