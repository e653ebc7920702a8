//! What is printed of a run of the pipeline, from the input to the last line.
#![tactic(auto)]

pub mod clocklog;
pub mod endings;
pub mod lines;
pub mod timing;
