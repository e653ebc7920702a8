//! The names of operations in assembly.
ghost use Rattle.std.specs.Prelude.{◌≡◌, ℕ, List};
ghost use Rattle.rv32i_text.specs.Assembly.{condition_name, load_name, store_name, immediate_name, shift_name, register_name};

use rv32i::instruction::{Condition, ImmediateOp, LoadKind, RegisterOp, ShiftOp, StoreKind};

/// A kind of operation that has names in assembly.
pub(crate) trait Mnemonic {
    ghost name: { Self → List ℕ };

    fn mnemonic(self) -> &'static str
        ensures { result.now ≡ name self };
}

impl Mnemonic for Condition {
    ghost name = { condition_name };

    fn mnemonic(self) -> &'static str {
        match self {
            Condition::Eq => "beq",
            Condition::Ne => "bne",
            Condition::Lt => "blt",
            Condition::Ge => "bge",
            Condition::Ltu => "bltu",
            Condition::Geu => "bgeu",
        }
    }
}

impl Mnemonic for LoadKind {
    ghost name = { load_name };

    fn mnemonic(self) -> &'static str {
        match self {
            LoadKind::Byte => "lb",
            LoadKind::Half => "lh",
            LoadKind::Word => "lw",
            LoadKind::ByteUnsigned => "lbu",
            LoadKind::HalfUnsigned => "lhu",
        }
    }
}

impl Mnemonic for StoreKind {
    ghost name = { store_name };

    fn mnemonic(self) -> &'static str {
        match self {
            StoreKind::Byte => "sb",
            StoreKind::Half => "sh",
            StoreKind::Word => "sw",
        }
    }
}

impl Mnemonic for ImmediateOp {
    ghost name = { immediate_name };

    fn mnemonic(self) -> &'static str {
        match self {
            ImmediateOp::Add => "addi",
            ImmediateOp::Slt => "slti",
            ImmediateOp::Sltu => "sltiu",
            ImmediateOp::Xor => "xori",
            ImmediateOp::Or => "ori",
            ImmediateOp::And => "andi",
        }
    }
}

impl Mnemonic for ShiftOp {
    ghost name = { shift_name };

    fn mnemonic(self) -> &'static str {
        match self {
            ShiftOp::Sll => "slli",
            ShiftOp::Srl => "srli",
            ShiftOp::Sra => "srai",
        }
    }
}

impl Mnemonic for RegisterOp {
    ghost name = { register_name };

    fn mnemonic(self) -> &'static str {
        match self {
            RegisterOp::Add => "add",
            RegisterOp::Sub => "sub",
            RegisterOp::Sll => "sll",
            RegisterOp::Slt => "slt",
            RegisterOp::Sltu => "sltu",
            RegisterOp::Xor => "xor",
            RegisterOp::Srl => "srl",
            RegisterOp::Sra => "sra",
            RegisterOp::Or => "or",
            RegisterOp::And => "and",
        }
    }
}
