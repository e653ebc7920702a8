//! What an instruction does, in pieces: what it reads and writes, what it computes, what it asks of the data memory and
//! what it makes of the answer.
ghost use Rattle.std.specs.Prelude.{◌≡◌, ◌<◌};
ghost use Rattle.rv32i.specs.Causes.{Gives};
ghost use Rattle.rv32i.specs.Effects.{first_source, second_source, destination, arithmetic, immediate_op, shift_op, holds, goes_on, jumps, branches, access, lanes_of, width, address_misaligned, access_fault, request, extract, loaded};

use crate::cause::Cause;
use crate::instruction::{
    Condition, ImmediateOp, Instruction, LoadKind, RegisterOp, ShiftOp, StoreKind,
};
use crate::register::Register;
use base::branch::Outcome;
use base::bus::{Lanes, Request};

/// What execution comes to.
#[derive(Clone, Copy, PartialEq, Eq, Debug)]
pub struct Effect {
    /// The value for the destination, or the address of a load or a store.
    pub result: u32,
    /// The address of the next instruction.
    pub next: u32,
    /// What became of a branch.
    pub outcome: Option<Outcome>,
}

/// How an instruction uses the data memory.
#[derive(Clone, Copy, PartialEq, Eq, Debug)]
pub enum Access {
    Load(LoadKind),
    Store(StoreKind),
}

impl Instruction {
    /// The first register that it reads; none for one that reads none, and for x0.
    #[tactic(auto, unfolding(crate::specs::Effects::first_source))]
    pub(crate) fn first_source(self) -> Option<Register>
        ensures { result ≡ first_source self }
    {
        match self {
            Instruction::Jalr { rs1, .. }
            | Instruction::Branch { rs1, .. }
            | Instruction::Load { rs1, .. }
            | Instruction::Store { rs1, .. }
            | Instruction::Immediate { rs1, .. }
            | Instruction::Shift { rs1, .. }
            | Instruction::Register { rs1, .. } => rs1.nonzero(),
            Instruction::Lui { .. }
            | Instruction::Auipc { .. }
            | Instruction::Jal { .. }
            | Instruction::Fence
            | Instruction::Ecall
            | Instruction::Ebreak => None,
        }
    }

    /// The second register that it reads: only branches, stores and register arithmetic have one.
    #[tactic(auto, unfolding(crate::specs::Effects::second_source))]
    pub(crate) fn second_source(self) -> Option<Register>
        ensures { result ≡ second_source self }
    {
        match self {
            Instruction::Branch { rs2, .. }
            | Instruction::Store { rs2, .. }
            | Instruction::Register { rs2, .. } => rs2.nonzero(),
            Instruction::Lui { .. }
            | Instruction::Auipc { .. }
            | Instruction::Jal { .. }
            | Instruction::Jalr { .. }
            | Instruction::Load { .. }
            | Instruction::Immediate { .. }
            | Instruction::Shift { .. }
            | Instruction::Fence
            | Instruction::Ecall
            | Instruction::Ebreak => None,
        }
    }

    /// The register that it writes, never x0.
    #[tactic(auto, unfolding(crate::specs::Effects::destination))]
    pub(crate) fn destination(self) -> Option<Register>
        ensures { result ≡ destination self }
    {
        match self {
            Instruction::Lui { rd, .. }
            | Instruction::Auipc { rd, .. }
            | Instruction::Jal { rd, .. }
            | Instruction::Jalr { rd, .. }
            | Instruction::Load { rd, .. }
            | Instruction::Immediate { rd, .. }
            | Instruction::Shift { rd, .. }
            | Instruction::Register { rd, .. } => rd.nonzero(),
            Instruction::Branch { .. }
            | Instruction::Store { .. }
            | Instruction::Fence
            | Instruction::Ecall
            | Instruction::Ebreak => None,
        }
    }

    /// How it uses the data memory, if it does.
    #[tactic(auto, unfolding(crate::specs::Effects::access))]
    pub(crate) fn access(self) -> Option<Access>
        ensures { result ≡ access self }
    {
        match self {
            Instruction::Load { kind, .. } => Some(Access::Load(kind)),
            Instruction::Store { kind, .. } => Some(Access::Store(kind)),
            _ => None,
        }
    }
}

/// What is computed of two operands; a shift goes by the low five bits of the second.
#[inline(always)]
pub fn arithmetic(op: RegisterOp, a: u32, b: u32) -> u32
    ensures { result ≡ arithmetic op a b }
{
    match op {
        RegisterOp::Add => a.wrapping_add(b),
        RegisterOp::Sub => a.wrapping_sub(b),
        RegisterOp::Sll => a.wrapping_shl(b),
        RegisterOp::Slt => u32::from(a.cast_signed() < b.cast_signed()),
        RegisterOp::Sltu => u32::from(a < b),
        RegisterOp::Xor => a ^ b,
        RegisterOp::Srl => a.wrapping_shr(b),
        RegisterOp::Sra => a.cast_signed().wrapping_shr(b).cast_unsigned(),
        RegisterOp::Or => a | b,
        RegisterOp::And => a & b,
    }
}

impl From<ImmediateOp> for RegisterOp {
    ghost from_gives = { λ op r. r ≡ immediate_op op };

    /// The operation on two operands that this is with an immediate as the second.
    fn from(op: ImmediateOp) -> RegisterOp {
        match op {
            ImmediateOp::Add => RegisterOp::Add,
            ImmediateOp::Slt => RegisterOp::Slt,
            ImmediateOp::Sltu => RegisterOp::Sltu,
            ImmediateOp::Xor => RegisterOp::Xor,
            ImmediateOp::Or => RegisterOp::Or,
            ImmediateOp::And => RegisterOp::And,
        }
    }
}

impl From<ShiftOp> for RegisterOp {
    ghost from_gives = { λ op r. r ≡ shift_op op };

    /// The operation on two operands that this is with the amount as the second.
    fn from(op: ShiftOp) -> RegisterOp {
        match op {
            ShiftOp::Sll => RegisterOp::Sll,
            ShiftOp::Srl => RegisterOp::Srl,
            ShiftOp::Sra => RegisterOp::Sra,
        }
    }
}

impl Condition {
    /// Whether a branch with these operands is taken.
    #[inline(always)]
    pub fn holds(self, a: u32, b: u32) -> bool
        ensures { result ≡ holds self a b }
    {
        match self {
            Condition::Eq => a == b,
            Condition::Ne => a != b,
            Condition::Lt => a.cast_signed() < b.cast_signed(),
            Condition::Ge => a.cast_signed() >= b.cast_signed(),
            Condition::Ltu => a < b,
            Condition::Geu => a >= b,
        }
    }
}

/// To the next instruction, with that result.
#[inline(always)]
pub(crate) fn goes_on(address: u32, res: u32) -> Effect
    ensures { result ≡ goes_on address res }
{
    Effect {
        result: res,
        next: address.wrapping_add(4),
        outcome: None,
    }
}

/// To a target, unless that is no multiple of 4.
#[inline(always)]
pub(crate) fn jumps(res: u32, target: u32, outcome: Option<Outcome>) -> Result<Effect, Cause>
    ensures { Gives (jumps res target outcome) result }
{
    if target % 4 == 0 {
        Ok(Effect {
            result: res,
            next: target,
            outcome,
        })
    } else {
        Err(Cause::InstructionMisaligned)
    }
}

/// To a branch's target where it is taken, else to the next instruction.
#[inline(always)]
pub(crate) fn branches(address: u32, target: u32, taken: bool) -> Result<Effect, Cause>
    ensures { Gives (branches address target taken) result }
{
    let outcome = Some(Outcome {
        address,
        target,
        taken,
    });
    if taken {
        jumps(0, target, outcome)
    } else {
        Ok(Effect {
            result: 0,
            next: address.wrapping_add(4),
            outcome,
        })
    }
}

/// The bytes of its word that a store at an address sets.
#[inline(always)]
fn lanes_of(kind: StoreKind, address: u32) -> Lanes
    ensures { result ≡ lanes_of kind address }
{
    let byte = address % 4;
    match kind {
        StoreKind::Byte => Lanes {
            b0: byte == 0,
            b1: byte == 1,
            b2: byte == 2,
            b3: byte == 3,
        },
        StoreKind::Half => Lanes {
            b0: byte == 0,
            b1: byte == 0,
            b2: byte == 2,
            b3: byte == 2,
        },
        StoreKind::Word => Lanes {
            b0: true,
            b1: true,
            b2: true,
            b3: true,
        },
    }
}

impl Access {
    /// Its width in bytes.
    #[inline(always)]
    fn width(self) -> u32
        ensures is { result ≡ width self }
        ensures bound { 0 < result }
    {
        match self {
            Access::Load(LoadKind::Byte | LoadKind::ByteUnsigned)
            | Access::Store(StoreKind::Byte) => 1,
            Access::Load(LoadKind::Half | LoadKind::HalfUnsigned)
            | Access::Store(StoreKind::Half) => 2,
            Access::Load(LoadKind::Word) | Access::Store(StoreKind::Word) => 4,
        }
    }

    /// The cause where its address is not aligned to its width.
    #[inline(always)]
    fn address_misaligned(self) -> Cause
        ensures { result ≡ address_misaligned self }
    {
        match self {
            Access::Load(_) => Cause::LoadMisaligned,
            Access::Store(_) => Cause::StoreMisaligned,
        }
    }

    /// The cause where its address is outside the data memory.
    #[inline(always)]
    fn access_fault(self) -> Cause
        ensures { result ≡ access_fault self }
    {
        match self {
            Access::Load(_) => Cause::LoadAccessFault,
            Access::Store(_) => Cause::StoreAccessFault,
        }
    }
}

/// What an instruction asks of a data memory of that size, or why it may not; `address` is the result of its execution
/// and `b` its second operand.
#[inline(always)]
#[tactic(auto, unfolding(crate::specs::Effects::request))]
pub fn request(
    size: u32,
    access: Option<Access>,
    address: u32,
    b: u32,
) -> Result<Option<Request>, Cause>
    ensures { Gives (request size access address b) result }
{
    let Some(access) = access else {
        return Ok(None);
    };
    if address % access.width() != 0 {
        return Err(access.address_misaligned());
    }
    if address >= size {
        return Err(access.access_fault());
    }
    Ok(Some(match access {
        Access::Load(_) => Request::Read {
            address: address / 4 * 4,
        },
        Access::Store(kind) => Request::Write {
            address: address / 4 * 4,
            word: b << (8 * (address % 4)),
            lanes: lanes_of(kind, address),
        },
    }))
}

/// What a load makes of a word whose lowest byte is the first that it reads.
#[inline(always)]
fn extract(kind: LoadKind, bytes: u32) -> u32
    ensures { result ≡ extract kind bytes }
{
    match kind {
        LoadKind::Byte => (((bytes % 0x100) as u8).cast_signed() as i32).cast_unsigned(),
        LoadKind::Half => (((bytes % 0x1_0000) as u16).cast_signed() as i32).cast_unsigned(),
        LoadKind::Word => bytes,
        LoadKind::ByteUnsigned => bytes % 0x100,
        LoadKind::HalfUnsigned => bytes % 0x1_0000,
    }
}

/// What a load makes of the word that it is answered; all else keeps its result.
#[inline(always)]
#[tactic(auto, unfolding(crate::specs::Effects::loaded))]
pub fn loaded(access: Option<Access>, res: u32, word: u32) -> u32
    ensures { result ≡ loaded access res word }
{
    match access {
        Some(Access::Load(kind)) => extract(kind, word >> (8 * (res % 4))),
        Some(Access::Store(_)) | None => res,
    }
}
