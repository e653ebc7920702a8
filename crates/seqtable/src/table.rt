//! The print of a sequential run.
ghost use Rattle.std.specs.Prelude.{◌≡◌, ◌++◌, OnOk, IfOk, string_bytes};
ghost use Rattle.seqtable.specs.Tables.{retired_line, end_line, sequence_text};

use crate::records::{EndText, RecordText};
use sequential::record::{Retired, Stop};
use std::alloc::{AllocError, Global};
use std::fmt::Write;
use text::table::{Columns, write_table};

/// A retired instruction, behind its number in the run.
struct RetiredColumns;

impl Columns for RetiredColumns {
    type Record = Retired;

    ghost line = { retired_line };

    fn write_line(text: &mut String, number: usize, record: &Retired) -> Result<(), AllocError> {
        writeln!(text, "{number} {}", RecordText(*record))
    }
}

/// Writes the last line: the stop, or that the limit was met, and how many retired.
fn write_end(text: &mut String, number: usize, stop: Option<Stop>) -> Result<(), AllocError>
    ensures { OnOk result (string_bytes text.new ≡ string_bytes text.old ++ end_line number stop) }
{
    writeln!(text, "{} retired {number}", EndText(stop))
}

/// What a sequential run prints of the instructions that it retired and of its end.
#[tactic(auto, unfolding(crate::specs::Tables::sequence_text, crate::specs::Tables::head_line))]
pub fn sequence_text(
    heap: Global,
    retired: &[Retired],
    stop: Option<Stop>,
) -> Result<String, AllocError>
    ensures { IfOk result (λ t. string_bytes t ≡ sequence_text retired.now stop) }
{
    let mut text = String::new(heap);
    write_table::<RetiredColumns>(&mut text, "retired address word rd value\n", retired)?;
    write_end(&mut text, retired.len(), stop)?;
    Ok(text)
}
