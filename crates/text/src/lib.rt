//! Text whose bytes are known: hexadecimal numbers, a value or a hyphen, and tables of records.
#![tactic(auto)]

pub mod hex;
pub mod or_dash;
pub mod table;
