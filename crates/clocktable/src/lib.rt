//! What is printed of a clocked run, as text whose bytes are known.
#![tactic(auto)]

pub mod columns;
pub mod table;
