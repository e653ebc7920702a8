//! The print of a clocked run.
ghost use Rattle.std.specs.Prelude.{◌≡◌, ◌++◌, OnOk, IfOk, string_bytes};
ghost use Rattle.clocktable.specs.Tables.{retired_line, clock_line, end_line, two_tables, clock_table};

use crate::columns::{ClockText, CountsText};
use clocking::state::ClockRecord;
use pipeline::machine::{RetiredAt, Totals};
use seqtable::records::{EndText, RecordText};
use sequential::record::Stop;
use std::alloc::{AllocError, Global};
use std::fmt::Write;
use text::table::{Columns, write_table};

/// A retired instruction, behind its number in the run and the clock in which it retired.
struct RetiredColumns;

impl Columns for RetiredColumns {
    type Record = RetiredAt;

    ghost line = { retired_line };

    fn write_line(text: &mut String, number: usize, record: &RetiredAt) -> Result<(), AllocError> {
        writeln!(
            text,
            "{number} {} {}",
            record.clock,
            RecordText(record.retired)
        )
    }
}

/// A clock, which has a number of its own.
struct ClockColumns;

impl Columns for ClockColumns {
    type Record = ClockRecord;

    ghost line = { clock_line };

    fn write_line(text: &mut String, _: usize, record: &ClockRecord) -> Result<(), AllocError> {
        writeln!(text, "{}", ClockText(*record))
    }
}

/// Writes the last line: the stop, or that the limit was met, and the counts.
fn write_end(text: &mut String, stop: Option<Stop>, counts: Totals) -> Result<(), AllocError>
    ensures { OnOk result (string_bytes text.new ≡ string_bytes text.old ++ end_line stop counts) }
{
    writeln!(text, "{} {}", EndText(stop), CountsText(counts))
}

/// The two tables of a clocked run: what retired, and the clocks.
#[tactic(auto, unfolding(crate::specs::Tables::two_tables, crate::specs::Tables::retired_head, crate::specs::Tables::clock_head))]
pub fn tables(
    heap: Global,
    retired: &[RetiredAt],
    clocks: &[ClockRecord],
) -> Result<String, AllocError>
    ensures { IfOk result (λ t. string_bytes t ≡ two_tables retired.now clocks.now) }
{
    let mut text = String::new(heap);
    write_table::<RetiredColumns>(&mut text, "retired clock address word rd value\n", retired)?;
    write_table::<ClockColumns>(&mut text, "clock IF ID EX MEM WB note\n", clocks)?;
    Ok(text)
}

/// What a clocked run prints: what retired, the clocks, and how it ended.
#[tactic(auto, unfolding(crate::specs::Tables::clock_table))]
pub fn clock_table(
    heap: Global,
    retired: &[RetiredAt],
    clocks: &[ClockRecord],
    stop: Option<Stop>,
    counts: Totals,
) -> Result<String, AllocError>
    ensures { IfOk result (λ t. string_bytes t ≡ clock_table retired.now clocks.now stop counts) }
{
    let mut text = tables(heap, retired, clocks)?;
    write_end(&mut text, stop, counts)?;
    Ok(text)
}
