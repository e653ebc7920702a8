//! The print of a sequential run, from the input to the last line, as text whose bytes are known.
#![tactic(auto)]

pub mod program;
pub mod records;
pub mod table;
#[cfg(test)]
mod tests;
