//! The forty instructions of RV32I, and what each does, in the pieces that a machine composes.
#![tactic(auto)]

pub mod bytewise;
pub mod cause;
pub mod effect;
pub mod instruction;
pub mod micro_op;
pub mod register;
pub mod registers;
pub mod target;
