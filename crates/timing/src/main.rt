//! Runs an image from standard input on a machine of the chosen parts.
#![tactic(auto)]

use std::process::ExitCode;
use timing_program::timing;

fn main(rt: HostRuntime) -> anyhow::Result<ExitCode> {
    timing(&rt)
}
