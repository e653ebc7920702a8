//! The program timing, asked for help.
#![tactic(auto)]

use std::process::ExitCode;
use timing_program::timing;

fn main(rt: HostRuntime) -> anyhow::Result<ExitCode> {
    timing(&rt)
}
