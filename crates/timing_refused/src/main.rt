//! The program timing, given a start that is no multiple of 4.
#![tactic(auto)]

use std::process::ExitCode;
use timing_program::timing;

fn main(rt: HostRuntime) -> anyhow::Result<ExitCode> {
    timing(&rt)
}
