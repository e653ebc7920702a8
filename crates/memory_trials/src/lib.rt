//! Trials of stacks of memories.
#![tactic(auto)]

#[cfg(test)]
mod tests;
