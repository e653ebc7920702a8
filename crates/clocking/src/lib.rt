//! The rule of the pipeline's clock: the latches, what each stage does with them, and why the pipeline agrees with the
//! sequential machine.
#![tactic(auto)]

pub mod counts;
pub mod latch;
pub mod stage;
pub mod state;
