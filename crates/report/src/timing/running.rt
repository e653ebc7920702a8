//! The run of a machine, and its text.
ghost use Rattle.std.specs.Prelude.{◌≡◌, true, false, IfOk, string_bytes};
ghost use Rattle.report.specs.Timings.{Shown, outcomes_of};

use super::assembly::Assembly;
use crate::lines::{Outcomes, ReportText, report};
use clocking::state::ClockRecord;
use clocktable::table::tables;
use longrun::gaps::Gaps;
use longrun::run::{Watch, run_to};
use memory::Memory;
use pipeline::journal::Journal;
use pipeline::machine::{Machine, RetiredAt};
use predictor::Predictor;
use setup::choice::Setup;
use std::alloc::{AllocError, Global};
use std::fmt::Write;

/// The outcomes of a machine's run, with these gaps.
fn outcomes_of<P: Predictor, I: Memory, D: Memory>(
    machine: &Machine<P, I, D>,
    gaps: &Gaps,
) -> Outcomes
    ensures { result ≡ outcomes_of machine.now gaps.now }
{
    Outcomes {
        counts: machine.counts(),
        gap: gaps.longest(),
        stop: machine.stopped(),
    }
}

/// Runs the machine up to the limit of the set-up, with no log, and reports.
fn unlogged<P: Predictor, I: Memory, D: Memory, W: Watch>(
    heap: Global,
    setup: &Setup,
    assembly: &mut Assembly<P, I, D>,
    watch: &mut W,
) -> Result<String, AllocError>
    requires { setup.now.log ≡ false }
    ensures { IfOk result (λ t. Shown P.Predictor.table I.Memory.means D.Memory.means
        setup.now assembly.old.longest assembly.old.machine (string_bytes t)) }
{
    let mut gaps = Gaps::new();
    run_to(&mut assembly.machine, setup.clocks, &mut gaps, watch);
    report(
        heap,
        setup,
        assembly.longest,
        outcomes_of(&assembly.machine, &gaps),
    )
}

/// Runs the machine up to the limit of the set-up, with every clock in the logs, and reports after the tables.
fn logged<P: Predictor, I: Memory, D: Memory>(
    heap: Global,
    setup: &Setup,
    assembly: &mut Assembly<P, I, D>,
) -> Result<String, AllocError>
    requires { setup.now.log ≡ true }
    ensures { IfOk result (λ t. Shown P.Predictor.table I.Memory.means D.Memory.means
        setup.now assembly.old.longest assembly.old.machine (string_bytes t)) }
{
    let mut retired_slots = vec![in heap; RetiredAt::EMPTY; setup.clocks as usize]?;
    let mut clock_slots = vec![in heap; ClockRecord::EMPTY; setup.clocks as usize]?;
    let mut journal = Journal::new(retired_slots.as_mut_slice(), clock_slots.as_mut_slice());
    assembly.machine.run(setup.clocks, &mut journal);
    let mut gaps = Gaps::new();
    gaps.note(journal.retirements.records());
    let mut text = tables(
        heap,
        journal.retirements.records(),
        journal.clocks.records(),
    )?;
    let report = ReportText {
        setup: *setup,
        longest: assembly.longest,
        outcomes: outcomes_of(&assembly.machine, &gaps),
    };
    write!(text, "{report}")?;
    Ok(text)
}

/// Runs the machine as the set-up says, and reports.
pub(crate) fn run_and_report<P: Predictor, I: Memory, D: Memory, W: Watch>(
    heap: Global,
    setup: &Setup,
    assembly: &mut Assembly<P, I, D>,
    watch: &mut W,
) -> Result<String, AllocError>
    ensures { IfOk result (λ t. Shown P.Predictor.table I.Memory.means D.Memory.means
        setup.now assembly.old.longest assembly.old.machine (string_bytes t)) }
{
    if setup.log {
        logged(heap, setup, assembly)
    } else {
        unlogged(heap, setup, assembly, watch)
    }
}
