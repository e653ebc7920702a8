//! The program timing: it runs an image from standard input on a machine of the chosen parts, and prints the longest wait that
//! there was and the longest that there can be.
#![tactic(auto)]

mod progress;

use base::failure::Failure;
use ending::Ending;
use progress::Progress;
use report::endings::{fault_ending, help_ending, run_ending};
use report::timing::timing_of;
use setup::choice::Setup;
use setup::options::{Command, command_of};
use std::env;
use std::io::Read;
use std::process::ExitCode;

/// The arguments after the program's name.
fn words_of(rt: &HostRuntime) -> anyhow::Result<Vec<String>> {
    Ok(env::args(rt)?.skip(1).collect(rt.alloc())?)
}

/// Runs the image from standard input on the machine of a set-up.
fn run(rt: &HostRuntime, setup: &Setup) -> anyhow::Result<Ending> {
    let mut image = Vec::new(rt.alloc());
    rt.stdin().read_to_end(&mut image)?;
    let mut progress = Progress::new(rt, setup.clocks)?;
    let answer = timing_of(rt.alloc(), setup, image, &mut progress);
    progress.end();
    Ok(run_ending(answer).map_err(Failure::from)?)
}

/// Does what the words ask for.
fn ending_for(rt: &HostRuntime, words: &[String]) -> anyhow::Result<Ending> {
    match command_of(words) {
        Ok(Command::Run(setup)) => run(rt, &setup),
        Ok(Command::Help) => Ok(help_ending()),
        Err(fault) => Ok(fault_ending(rt.alloc(), words, fault)?),
    }
}

/// Does what the arguments ask for, and prints what came of it. The status is 0 after a run and after help, and 1 after a refusal
/// and after a fault in the arguments.
pub fn timing(rt: &HostRuntime) -> anyhow::Result<ExitCode> {
    let words = words_of(rt)?;
    let ending = ending_for(rt, words.as_slice())?;
    Ok(ending.print(rt)?)
}
