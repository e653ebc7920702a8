//! Reads an image from standard input, runs it on the sequential machine and prints what retired.
#![tactic(auto)]

use ending::ending_of;
use seqtable::program::sequence_of;
use std::io;
use std::io::Read;
use std::process::ExitCode;

/// The status after a refusal.
const REFUSED: u8 = 0;

fn main(rt: HostRuntime) -> io::Result<ExitCode> {
    let mut image = Vec::new(rt.alloc());
    rt.stdin().read_to_end(&mut image)?;
    let ending = ending_of(sequence_of(rt.alloc(), image), REFUSED)?;
    ending.print(&rt)
}
