//! One clock: a file for each stage, and the clock put together.
#![tactic(auto)]

pub mod counts;
pub mod cycle;
pub mod data;
pub mod decode;
pub mod execute;
pub mod fetch;
pub mod listener;
pub mod prediction;
pub mod record;
pub mod write_back;
