//! How far a long run has come.
use longrun::run::Watch;
use std::io::IsTerminal;
use std::time::Instant;

/// How many clocks pass between two looks at the time.
const LOOK: u32 = 1 << 20;

/// How many seconds pass before the first line on a run's progress.
const FIRST: u64 = 2;

/// How many seconds pass between two such lines.
const NEXT: u64 = 10;

/// How many seconds pass where each line takes the place of the one before.
const NEXT_IN_PLACE: u64 = 1;

/// Says on standard error how far a long run has come.
#[derive(Drop)]
pub(crate) struct Progress<'a> {
    rt: &'a HostRuntime,
    start: Instant,
    limit: u32,
    /// Whether standard error is a terminal, where each line takes the place of the one before.
    in_place: bool,
    /// At which clock to look at the time again.
    look: u32,
    /// After which second to say something again.
    say: u64,
    /// Whether the last line is still to be ended.
    open: bool,
}

impl<'a> Progress<'a> {
    pub(crate) fn new(rt: &'a HostRuntime, limit: u32) -> anyhow::Result<Progress<'a>> {
        Ok(Progress {
            rt,
            start: Instant::now(rt)?,
            limit,
            in_place: rt.stderr().is_terminal(),
            look: LOOK,
            say: FIRST,
            open: false,
        })
    }

    /// Says how far the run has come, if enough time has passed.
    fn tell(&mut self, clocks: u32) -> anyhow::Result<()> {
        let seconds = self.start.elapsed(self.rt)?.as_secs();
        if seconds < self.say {
            return Ok(());
        }
        if self.in_place {
            self.say = seconds.saturating_add(NEXT_IN_PLACE);
            self.open = true;
            eprint!(self.rt; "\rtiming: {clocks} of at most {} clocks", self.limit)?;
        } else {
            self.say = seconds.saturating_add(NEXT);
            eprintln!(self.rt; "timing: {clocks} of at most {} clocks", self.limit)?;
        }
        Ok(())
    }

    /// Ends the last line, where it is still to be ended.
    pub(crate) fn end(&self) {
        if self.open {
            // as in `made`
            let _ = eprintln!(self.rt);
        }
    }
}

impl Watch for Progress<'_> {
    ghost hears = { λ _ _ _. Unit {0} };

    fn made(&mut self, clocks: u32) {
        if clocks >= self.look {
            self.look = clocks.saturating_add(LOOK);
            // a line that cannot be written is no reason to end the run
            let _ = self.tell(clocks);
        }
    }
}
