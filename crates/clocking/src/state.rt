//! The state of a pipeline, and the record of a clock.
use crate::counts::Counts;
use crate::latch::Latches;
use memory::Memory;
use predictor::Predictor;
use rv32i::registers::Registers;
use rv32i_words::memo::Memo;
use sequential::record::{Retirement, Stop};

/// The registers, the latches and the counts, with the words that are remembered, the predictor and the two memories.
#[derive(Drop)]
pub struct Core<P: Predictor, I: Memory, D: Memory> {
    pub registers: Registers,
    pub latches: Latches,
    pub counts: Counts,
    pub stopped: Option<Stop>,
    /// What the words that were fetched issue.
    pub memo: Memo,
    pub predictor: P,
    pub instructions: I,
    pub data_memory: D,
}

/// What happened in a clock besides instructions moving on.
#[derive(Clone, Copy, PartialEq, Eq, Debug)]
pub struct Notes {
    /// The instruction memory said Wait.
    pub fetch_wait: bool,
    /// An operand was not there yet.
    pub hazard: bool,
    /// The data memory said Wait.
    pub data_wait: bool,
    /// A fault in data, or a wrong guess in execute, dropped what was fetched after it.
    pub rollback: bool,
    /// The machine stopped.
    pub stop: bool,
}

impl Notes {
    /// Nothing else happened.
    pub const NONE: Notes = Notes {
        fetch_wait: false,
        hazard: false,
        data_wait: false,
        rollback: false,
        stop: false,
    };
}

/// A clock: its number, the address to fetch and the latches' addresses at its beginning, and what happened.
#[derive(Clone, Copy, PartialEq, Eq, Debug)]
pub struct ClockRecord {
    pub clock: u32,
    pub f: u32,
    pub d: Option<u32>,
    pub x: Option<u32>,
    pub m: Option<u32>,
    pub w: Option<u32>,
    pub notes: Notes,
}

impl ClockRecord {
    /// What a slot of a log holds before it is filled.
    pub const EMPTY: ClockRecord = ClockRecord {
        clock: 0,
        f: 0,
        d: None,
        x: None,
        m: None,
        w: None,
        notes: Notes::NONE,
    };
}

/// A clock that was made: its record, and what retired in it.
#[derive(Clone, Copy, PartialEq, Eq, Debug)]
pub struct Event {
    pub clock: ClockRecord,
    pub retirement: Option<Retirement>,
}
