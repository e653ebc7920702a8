//! Trials of the instruction words, the sequential machine, the pipeline and their prints, against what the manual and the rules
//! give by hand.
#![tactic(auto)]

#[cfg(test)]
mod calls;
#[cfg(test)]
mod clock_prints;
#[cfg(test)]
mod instruction_words;
#[cfg(test)]
mod machines;
#[cfg(test)]
mod prints;
