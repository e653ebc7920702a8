//! The machine.
use crate::token::HoldToken;
use base::refusal::Refusal;
use clocking::state::Core;
use memory::Memory;
use predictor::Predictor;
use sequential::record::Retired;

mod clocks;
mod holds;
mod loading;
mod readings;

pub use loading::{check, load};

/// A retired record, and the clock in which it retired.
#[derive(Clone, Copy, PartialEq, Eq, Debug)]
pub struct RetiredAt {
    pub clock: u32,
    pub retired: Retired,
}

impl RetiredAt {
    /// What a slot of a log holds before it is filled.
    pub const EMPTY: RetiredAt = RetiredAt {
        clock: 0,
        retired: Retired::EMPTY,
    };
}

/// How many clocks a run made, and the refusal that ended it. There is none only where all were made that were asked for and
/// nothing refused the first test, which is made also where none are asked for.
#[derive(Clone, Copy, PartialEq, Eq, Debug)]
pub struct Run {
    pub made: u32,
    pub why: Option<Refusal>,
}

/// The clocks that a machine has made since it was loaded, and the instructions that it fetched, that retired, that rollbacks
/// removed and that stand in latches. `stopped` is 1 once it has stopped, else 0.
#[derive(Clone, Copy, PartialEq, Eq, Debug)]
pub struct Totals {
    pub clocks: u32,
    pub fetched: u32,
    pub retired: u32,
    pub dropped: u32,
    pub in_flight: u32,
    pub stopped: u32,
}

/// A token that is not taken is handed back.
pub struct Rejected {
    pub why: Refusal,
    pub token: HoldToken,
}

/// A pipeline that is loaded.
#[derive(Drop)]
pub struct Machine<P: Predictor, I: Memory, D: Memory> {
    serial: u16,
    held: bool,
    core: Core<P, I, D>,
}
