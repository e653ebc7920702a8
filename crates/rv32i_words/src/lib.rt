//! The words of the forty instructions: decoding, encoding, and what a word issues.
#![tactic(auto)]

pub mod decoding;
pub mod encoding;
mod field;
mod fields;
pub mod memo;
