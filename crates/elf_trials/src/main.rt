//! Reads ELF files from standard input, a line for each, and prints what each loads or why it is refused.
#![tactic(auto)]

use elf::error::ReadError;
use elf::is_elf;
use elf::program::{Program, read};
use std::alloc::{AllocError, Global};
use std::fmt::Write;
use std::io;

/// How many bytes stand in a line.
const ROW: usize = 16;

/// What a program loads: where it starts, how much memory and how many bytes it has, and those rows of its bytes that are not all zeros.
fn loaded_text(heap: Global, program: &Program) -> Result<String, AllocError> {
    let mut text = format!(in heap;
        "entry {:x} memory {} bytes {}",
        program.entry,
        program.memory_size,
        program.bytes.len()
    )?;
    for (number, row) in program.bytes.chunks(ROW).enumerate() {
        if row.iter().any(|byte| *byte != 0) {
            let digits = hex::encode(heap, row)?;
            write!(text, "\n{:x} {digits}", number.wrapping_mul(ROW))?;
        }
    }
    Ok(text)
}

/// What is printed of a file: what it loads, or its fault with its number; `raw` stands before it where a file is no ELF file.
fn account_of(heap: Global, file: &[u8]) -> Result<String, AllocError> {
    let kind = if is_elf(file) { "" } else { "raw " };
    match read(heap, file) {
        Ok(program) => {
            let text = loaded_text(heap, &program)?;
            format!(in heap; "{kind}{text}")
        }
        Err(ReadError::Faulty(fault)) => {
            let number = fault.number();
            format!(in heap; "{kind}fault {number}, {fault}")
        }
        Err(why) => why.to_string(heap),
    }
}

/// What is printed of a line, `NAME DIGITS`.
fn line_text(heap: Global, line: &str) -> Result<String, AllocError> {
    let (name, digits) = line.split_once(' ').unwrap_or((line, ""));
    match hex::decode(heap, digits) {
        Ok(file) => {
            let account = account_of(heap, file.as_slice())?;
            format!(in heap; "{name}: {account}")
        }
        Err(_) => format!(in heap; "{name}: no bytes"),
    }
}

fn main(rt: HostRuntime) -> io::Result<()> {
    let text = io::read_to_string(rt.alloc(), rt.stdin())?;
    for line in text.lines() {
        let account = line_text(rt.alloc(), line)?;
        println!(rt; "{account}")?;
    }
    Ok(())
}
