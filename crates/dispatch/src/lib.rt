//! The memories and the predictor of a run, as a set-up chooses them.
#![tactic(auto)]

pub mod boxed;
pub mod layer;
pub mod predictors;
pub mod replies;
pub mod stack;
#[cfg(test)]
mod tests;
