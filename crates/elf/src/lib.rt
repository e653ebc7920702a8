//! A reader of ELF files: 32-bit little-endian executables for RISC-V, and which bytes they load where.
#![tactic(auto)]

pub mod error;
pub mod fault;
mod field;
mod header;
pub mod program;
mod segment;
mod segments;

pub use header::is_elf;
