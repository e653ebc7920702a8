//! The forty instructions.
use crate::register::Register;

/// When a branch is taken.
#[derive(Clone, Copy, PartialEq, Eq, Debug)]
pub enum Condition {
    Eq,
    Ne,
    Lt,
    Ge,
    Ltu,
    Geu,
}

/// What a load reads, and how it fills the register.
#[derive(Clone, Copy, PartialEq, Eq, Debug)]
pub enum LoadKind {
    Byte,
    Half,
    Word,
    ByteUnsigned,
    HalfUnsigned,
}

/// What a store writes.
#[derive(Clone, Copy, PartialEq, Eq, Debug)]
pub enum StoreKind {
    Byte,
    Half,
    Word,
}

/// What is computed of a register and an immediate.
#[derive(Clone, Copy, PartialEq, Eq, Debug)]
pub enum ImmediateOp {
    Add,
    Slt,
    Sltu,
    Xor,
    Or,
    And,
}

/// A shift by an amount in the word.
#[derive(Clone, Copy, PartialEq, Eq, Debug)]
pub enum ShiftOp {
    Sll,
    Srl,
    Sra,
}

/// What is computed of two registers.
#[derive(Clone, Copy, PartialEq, Eq, Debug)]
pub enum RegisterOp {
    Add,
    Sub,
    Sll,
    Slt,
    Sltu,
    Xor,
    Srl,
    Sra,
    Or,
    And,
}

/// Which of the forty.
#[derive(Clone, Copy, PartialEq, Eq, Debug)]
pub enum Operation {
    Lui,
    Auipc,
    Jal,
    Jalr,
    Branch(Condition),
    Load(LoadKind),
    Store(StoreKind),
    Immediate(ImmediateOp),
    Shift(ShiftOp),
    Register(RegisterOp),
    Fence,
    Ecall,
    Ebreak,
}

/// An instruction with its registers and its immediate. An upper immediate is held with its twelve low zeros.
#[derive(Clone, Copy, PartialEq, Eq, Debug)]
pub enum Instruction {
    Lui {
        rd: Register,
        imm: u32,
    },
    Auipc {
        rd: Register,
        imm: u32,
    },
    Jal {
        rd: Register,
        offset: i32,
    },
    Jalr {
        rd: Register,
        rs1: Register,
        offset: i32,
    },
    Branch {
        condition: Condition,
        rs1: Register,
        rs2: Register,
        offset: i32,
    },
    Load {
        kind: LoadKind,
        rd: Register,
        rs1: Register,
        offset: i32,
    },
    Store {
        kind: StoreKind,
        rs1: Register,
        rs2: Register,
        offset: i32,
    },
    Immediate {
        op: ImmediateOp,
        rd: Register,
        rs1: Register,
        imm: i32,
    },
    Shift {
        op: ShiftOp,
        rd: Register,
        rs1: Register,
        amount: u8,
    },
    Register {
        op: RegisterOp,
        rd: Register,
        rs1: Register,
        rs2: Register,
    },
    Fence,
    Ecall,
    Ebreak,
}
