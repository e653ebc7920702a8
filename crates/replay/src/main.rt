//! Reads images from standard input, runs each on the machines and prints what they did.
#![tactic(auto)]

use images::replay_all;
use std::io;

mod account;
mod images;
mod runner;
#[cfg(test)]
mod tests;

fn main(rt: HostRuntime) -> io::Result<()> {
    let text = io::read_to_string(rt.alloc(), rt.stdin())?;
    let output = replay_all(rt.alloc(), text.as_str())?;
    print!(rt; "{output}")
}
