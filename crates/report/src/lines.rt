//! The lines of a report.
ghost use Rattle.std.specs.Prelude.{◌≡◌, ◌+◌, IfOk, Some, string_bytes};
ghost use Rattle.report.specs.Lines.{setup_lines, bounds_line, totals_line, gap_line, bound, report_text};

use pipeline::machine::Totals;
use seqtable::records::EndText;
use sequential::record::Stop;
use setup::choice::Setup;
use std::alloc::{AllocError, Global};
use std::fmt;

/// The longest waits that the two memories state.
#[derive(Clone, Copy)]
pub struct Longest {
    pub instructions: u32,
    pub data_memory: u32,
}

impl Longest {
    /// The longest waits of both together, and so many clocks more.
    fn bound(self, more: u32) -> u64
        ensures { result ≡ self.instructions + self.data_memory + more }
    {
        u64::from(self.instructions) + u64::from(self.data_memory) + u64::from(more)
    }
}

/// The counts, the longest gap and the stop of a run.
#[derive(Clone, Copy)]
pub struct Outcomes {
    pub counts: Totals,
    /// The longest gap between retirements.
    pub gap: u32,
    pub stop: Option<Stop>,
}

/// The predictor and the two memories, with the longest waits that they state.
#[derive(Clone, Copy)]
struct SetupLines(Setup, Longest);

impl fmt::Display for SetupLines {
    ghost output = { λ x. Some (setup_lines x.0 x.1) };

    fn fmt<W: fmt::Write>(&self, f: &mut fmt::Formatter<W>) -> fmt::Result {
        let SetupLines(setup, longest) = *self;
        write!(
            f,
            "predictor {}\ninstructions {} longest {}\ndata {} longest {}\n",
            setup.predictor,
            setup.instructions,
            longest.instructions,
            setup.data_memory,
            longest.data_memory
        )
    }
}

/// How many clocks a retirement can be away, at first and after each.
#[derive(Clone, Copy)]
struct BoundsLine(Longest);

impl fmt::Display for BoundsLine {
    ghost output = { λ x. Some (bounds_line (bound x.0 5) (bound x.0 3)) };

    fn fmt<W: fmt::Write>(&self, f: &mut fmt::Formatter<W>) -> fmt::Result {
        writeln!(
            f,
            "first retirement within {} clocks, each next within {}",
            self.0.bound(5),
            self.0.bound(3)
        )
    }
}

/// The clocks, and the instructions fetched, retired, dropped and in flight.
#[derive(Clone, Copy)]
struct TotalsLine(Totals);

impl fmt::Display for TotalsLine {
    ghost output = { λ x. Some (totals_line x.0) };

    fn fmt<W: fmt::Write>(&self, f: &mut fmt::Formatter<W>) -> fmt::Result {
        let counts = self.0;
        writeln!(
            f,
            "clocks {} fetched {} retired {} dropped {} in flight {}",
            counts.clocks, counts.fetched, counts.retired, counts.dropped, counts.in_flight
        )
    }
}

/// The longest gap that there was.
#[derive(Clone, Copy)]
struct GapLine(u32);

impl fmt::Display for GapLine {
    ghost output = { λ x. Some (gap_line x.0) };

    fn fmt<W: fmt::Write>(&self, f: &mut fmt::Formatter<W>) -> fmt::Result {
        writeln!(f, "longest gap {}", self.0)
    }
}

/// The report of a run: the set-up, the longest waits that its memories state, and its outcomes.
#[derive(Clone, Copy)]
pub struct ReportText {
    pub setup: Setup,
    pub longest: Longest,
    pub outcomes: Outcomes,
}

impl fmt::Display for ReportText {
    ghost output = { λ r. Some (report_text r.setup r.longest r.outcomes) };

    fn fmt<W: fmt::Write>(&self, f: &mut fmt::Formatter<W>) -> fmt::Result {
        writeln!(
            f,
            "{}{}{}{}{}",
            SetupLines(self.setup, self.longest),
            BoundsLine(self.longest),
            TotalsLine(self.outcomes.counts),
            GapLine(self.outcomes.gap),
            EndText(self.outcomes.stop)
        )
    }
}

/// The report of a run.
pub fn report(
    heap: Global,
    setup: &Setup,
    longest: Longest,
    outcomes: Outcomes,
) -> Result<String, AllocError>
    ensures { IfOk result (λ t. string_bytes t ≡ report_text setup.now longest outcomes) }
{
    let setup = *setup;
    format!(in heap;
        "{}",
        ReportText {
            setup,
            longest,
            outcomes
        }
    )
}
