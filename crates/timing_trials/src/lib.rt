//! Trials of what timing prints.
#![tactic(auto)]

#[cfg(test)]
mod tests;
