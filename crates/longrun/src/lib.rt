//! Long runs: as many clocks as are wanted, of which nothing is kept but the gaps between retirements.
#![tactic(auto)]

pub mod gaps;
pub mod run;
