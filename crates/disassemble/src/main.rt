//! Reads words from standard input and prints the line of assembly of each.
#![tactic(auto)]

use lines::disassemble_all;
use std::io;

mod lines;

fn main(rt: HostRuntime) -> io::Result<()> {
    let text = io::read_to_string(rt.alloc(), rt.stdin())?;
    let output = disassemble_all(rt.alloc(), text.as_str())?;
    print!(rt; "{output}")
}
