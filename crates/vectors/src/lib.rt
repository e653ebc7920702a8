//! The vectors of the trials against another simulator and another disassembler: images and words as text, and digests of what is
//! too long to be stored.
#![tactic(auto)]

pub mod digest;
pub mod image;
#[cfg(test)]
mod tests;
