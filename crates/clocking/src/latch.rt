//! The latches between the stages.
use base::branch::Outcome;
use rv32i::cause::Cause;
use rv32i::effect::Access;
use rv32i::micro_op::MicroOp;
use rv32i::register::Register;
use sequential::record::Stop;

/// Before decode: a word, the instruction that it issues or the cause, and the guessed next address.
#[derive(Clone, Copy)]
pub struct Fetched {
    pub address: u32,
    pub issued: Result<MicroOp, Cause>,
    pub word: u32,
    pub guess: u32,
}

/// Before execute: an instruction with its operands.
#[derive(Clone, Copy)]
pub struct Decoded {
    pub word: u32,
    pub instruction: MicroOp,
    pub address: u32,
    pub a: u32,
    pub guess: u32,
    pub b: u32,
    pub rd: Option<Register>,
}

/// Before data: an instruction with the result of its execution.
#[derive(Clone, Copy)]
pub struct Executed {
    pub result: u32,
    pub address: u32,
    pub next: u32,
    pub word: u32,
    pub b: u32,
    pub access: Option<Access>,
    pub outcome: Option<Outcome>,
    pub rd: Option<Register>,
}

/// Before write-back: an instruction with its value.
#[derive(Clone, Copy)]
pub struct Completed {
    pub address: u32,
    pub value: u32,
    pub word: u32,
    pub rd: Option<Register>,
    pub outcome: Option<Outcome>,
}

/// A latch is empty, or holds an instruction that faults, or one that has not faulted so far.
#[derive(Clone, Copy)]
pub enum Latch<T> {
    Empty,
    Faulting(Stop),
    Full(T),
}

/// The address to fetch, and the latches before decode, execute, data and write-back.
#[derive(Clone, Copy)]
pub struct Latches {
    pub f: u32,
    pub d: Latch<Fetched>,
    pub x: Latch<Decoded>,
    pub m: Latch<Executed>,
    pub w: Latch<Completed>,
}
