//! Reads an image from standard input, clocks it through the pipeline and prints what retired, the clocks and the counts.
#![tactic(auto)]

use ending::ending_of;
use report::clocklog::clocks_of;
use std::io;
use std::io::Read;
use std::process::ExitCode;

/// The status after a refusal.
const REFUSED: u8 = 0;

fn main(rt: HostRuntime) -> io::Result<ExitCode> {
    let mut image = Vec::new(rt.alloc());
    rt.stdin().read_to_end(&mut image)?;
    let ending = ending_of(clocks_of(rt.alloc(), image), REFUSED)?;
    ending.print(&rt)
}
