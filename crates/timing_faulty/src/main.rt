//! The program timing, given a word that is no option.
#![tactic(auto)]

use std::process::ExitCode;
use timing_program::timing;

fn main(rt: HostRuntime) -> anyhow::Result<ExitCode> {
    timing(&rt)
}
