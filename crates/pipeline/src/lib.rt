//! The pipeline: a machine that is loaded with a predictor and two memories, and the calls on it.
#![tactic(auto)]

pub mod journal;
pub mod machine;
pub mod pause;
pub mod token;
