//! An instruction laid out flat, as the stages of a pipeline carry it.
ghost use Rattle.std.specs.Prelude.{◌≡◌};
ghost use Rattle.rv32i.specs.Causes.{Gives};
ghost use Rattle.rv32i.specs.Effects.{first_source, second_source, destination, access, executed};
ghost use Rattle.rv32i.specs.MicroOps.{branch_mnemonic, load_mnemonic, store_mnemonic, immediate_mnemonic, shift_mnemonic, register_mnemonic, mnemonic_of, immediate_of, ImmediateFits};
ghost use Rattle.rv32i.specs.Targets.{target_of};

use crate::cause::Cause;
use crate::effect::{Access, Effect, arithmetic, branches, goes_on, jumps};
use crate::instruction::{
    Condition, ImmediateOp, Instruction, LoadKind, RegisterOp, ShiftOp, StoreKind,
};
use crate::register::Register;
use crate::target::Target;
use std::marker::Model;

/// The names of the forty, in the manual's order.
#[derive(Clone, Copy, PartialEq, Eq, Debug)]
enum Mnemonic {
    Lui,
    Auipc,
    Jal,
    Jalr,
    Beq,
    Bne,
    Blt,
    Bge,
    Bltu,
    Bgeu,
    Lb,
    Lh,
    Lw,
    Lbu,
    Lhu,
    Sb,
    Sh,
    Sw,
    Addi,
    Slti,
    Sltiu,
    Xori,
    Ori,
    Andi,
    Slli,
    Srli,
    Srai,
    Add,
    Sub,
    Sll,
    Slt,
    Sltu,
    Xor,
    Srl,
    Sra,
    Or,
    And,
    Fence,
    Ecall,
    Ebreak,
}

/// An instruction with what the stages ask of it, each in a field of its own.
#[derive(Clone, Copy, PartialEq, Eq, Debug)]
pub struct MicroOp {
    /// Its immediate, a signed one by its 32 bits; 0 where it has none.
    imm: u32,
    mnemonic: Mnemonic,
    rd: Option<Register>,
    rs1: Option<Register>,
    rs2: Option<Register>,
    access: Option<Access>,
}

impl Model for MicroOp {
    ghost use Rattle.std.specs.Prelude.{◌≡◌};
    ghost use Rattle.std.proofs.Common.{sym};
    ghost use Rattle.rv32i.specs.declared.instruction.Instruction.{Instruction};

    ghost Value = { Instruction };

    ghost use Rattle.rv32i.specs.MicroOps.{instruction_of, fields_of, IsOfItsInstruction};

    ghost view = { instruction_of };

    ghost invariant = { IsOfItsInstruction };

    ghost inverse = { fields_of };

    ghost inverse_ok = { λ m h. sym h };
}

impl Instruction {
    /// Its name.
    fn mnemonic(self) -> Mnemonic
        ensures { result ≡ mnemonic_of self }
    {
        match self {
            Instruction::Lui { .. } => Mnemonic::Lui,
            Instruction::Auipc { .. } => Mnemonic::Auipc,
            Instruction::Jal { .. } => Mnemonic::Jal,
            Instruction::Jalr { .. } => Mnemonic::Jalr,
            Instruction::Branch { condition, .. } => condition.into(),
            Instruction::Load { kind, .. } => kind.into(),
            Instruction::Store { kind, .. } => kind.into(),
            Instruction::Immediate { op, .. } => op.into(),
            Instruction::Shift { op, .. } => op.into(),
            Instruction::Register { op, .. } => op.into(),
            Instruction::Fence => Mnemonic::Fence,
            Instruction::Ecall => Mnemonic::Ecall,
            Instruction::Ebreak => Mnemonic::Ebreak,
        }
    }

    /// The 32 bits of its immediate, or 0 where it has none.
    fn immediate(self) -> u32
        ensures is { result ≡ immediate_of self }
        ensures fits { ImmediateFits self }
    {
        match self {
            Instruction::Lui { imm, .. } | Instruction::Auipc { imm, .. } => imm,
            Instruction::Jal { offset, .. } => offset.cast_unsigned(),
            Instruction::Jalr { offset, .. } => offset.cast_unsigned(),
            Instruction::Branch { offset, .. } => offset.cast_unsigned(),
            Instruction::Load { offset, .. } => offset.cast_unsigned(),
            Instruction::Store { offset, .. } => offset.cast_unsigned(),
            Instruction::Immediate { imm, .. } => imm.cast_unsigned(),
            Instruction::Shift { amount, .. } => u32::from(amount),
            Instruction::Register { .. }
            | Instruction::Fence
            | Instruction::Ecall
            | Instruction::Ebreak => 0,
        }
    }
}

impl From<Condition> for Mnemonic {
    ghost from_gives = { λ x r. r ≡ branch_mnemonic x };

    /// The branch on that condition.
    fn from(x: Condition) -> Mnemonic {
        match x {
            Condition::Eq => Mnemonic::Beq,
            Condition::Ne => Mnemonic::Bne,
            Condition::Lt => Mnemonic::Blt,
            Condition::Ge => Mnemonic::Bge,
            Condition::Ltu => Mnemonic::Bltu,
            Condition::Geu => Mnemonic::Bgeu,
        }
    }
}

impl From<LoadKind> for Mnemonic {
    ghost from_gives = { λ x r. r ≡ load_mnemonic x };

    /// The load of that kind.
    fn from(x: LoadKind) -> Mnemonic {
        match x {
            LoadKind::Byte => Mnemonic::Lb,
            LoadKind::Half => Mnemonic::Lh,
            LoadKind::Word => Mnemonic::Lw,
            LoadKind::ByteUnsigned => Mnemonic::Lbu,
            LoadKind::HalfUnsigned => Mnemonic::Lhu,
        }
    }
}

impl From<StoreKind> for Mnemonic {
    ghost from_gives = { λ x r. r ≡ store_mnemonic x };

    /// The store of that kind.
    fn from(x: StoreKind) -> Mnemonic {
        match x {
            StoreKind::Byte => Mnemonic::Sb,
            StoreKind::Half => Mnemonic::Sh,
            StoreKind::Word => Mnemonic::Sw,
        }
    }
}

impl From<ImmediateOp> for Mnemonic {
    ghost from_gives = { λ x r. r ≡ immediate_mnemonic x };

    /// The operation with an immediate.
    fn from(x: ImmediateOp) -> Mnemonic {
        match x {
            ImmediateOp::Add => Mnemonic::Addi,
            ImmediateOp::Slt => Mnemonic::Slti,
            ImmediateOp::Sltu => Mnemonic::Sltiu,
            ImmediateOp::Xor => Mnemonic::Xori,
            ImmediateOp::Or => Mnemonic::Ori,
            ImmediateOp::And => Mnemonic::Andi,
        }
    }
}

impl From<ShiftOp> for Mnemonic {
    ghost from_gives = { λ x r. r ≡ shift_mnemonic x };

    /// The shift by an amount in the word.
    fn from(x: ShiftOp) -> Mnemonic {
        match x {
            ShiftOp::Sll => Mnemonic::Slli,
            ShiftOp::Srl => Mnemonic::Srli,
            ShiftOp::Sra => Mnemonic::Srai,
        }
    }
}

impl From<RegisterOp> for Mnemonic {
    ghost from_gives = { λ x r. r ≡ register_mnemonic x };

    /// The operation on two registers.
    fn from(x: RegisterOp) -> Mnemonic {
        match x {
            RegisterOp::Add => Mnemonic::Add,
            RegisterOp::Sub => Mnemonic::Sub,
            RegisterOp::Sll => Mnemonic::Sll,
            RegisterOp::Slt => Mnemonic::Slt,
            RegisterOp::Sltu => Mnemonic::Sltu,
            RegisterOp::Xor => Mnemonic::Xor,
            RegisterOp::Srl => Mnemonic::Srl,
            RegisterOp::Sra => Mnemonic::Sra,
            RegisterOp::Or => Mnemonic::Or,
            RegisterOp::And => Mnemonic::And,
        }
    }
}

impl From<Instruction> for MicroOp {
    ghost from_gives = { λ i m. m ≡ i };

    /// The same instruction, laid out flat.
    fn from(instruction: Instruction) -> MicroOp {
        MicroOp {
            imm: instruction.immediate(),
            mnemonic: instruction.mnemonic(),
            rd: instruction.destination(),
            rs1: instruction.first_source(),
            rs2: instruction.second_source(),
            access: instruction.access(),
        }
    }
}

impl MicroOp {
    /// The first register that it reads; none for one that reads none, and for x0.
    #[inline(always)]
    pub fn first_source(self) -> Option<Register>
        ensures { result ≡ first_source self }
    {
        self.rs1
    }

    /// The second register that it reads: only branches, stores and register arithmetic have one.
    #[inline(always)]
    pub fn second_source(self) -> Option<Register>
        ensures { result ≡ second_source self }
    {
        self.rs2
    }

    /// The register that it writes, never x0.
    #[inline(always)]
    pub fn destination(self) -> Option<Register>
        ensures { result ≡ destination self }
    {
        self.rd
    }

    /// How it uses the data memory, if it does.
    #[inline(always)]
    pub fn access(self) -> Option<Access>
        ensures { result ≡ access self }
    {
        self.access
    }

    /// Where the instruction at an address may lead.
    #[inline(always)]
    #[tactic(auto, using(crate::proofs::Flat::bits_kept), unfolding(crate::specs::Targets::target_of))]
    pub fn target(self, address: u32) -> Target
        ensures { result ≡ target_of self address }
    {
        match self.mnemonic {
            Mnemonic::Jal => Target::Jump(address.wrapping_add(self.imm)),
            Mnemonic::Beq
            | Mnemonic::Bne
            | Mnemonic::Blt
            | Mnemonic::Bge
            | Mnemonic::Bltu
            | Mnemonic::Bgeu => Target::Branch(address.wrapping_add(self.imm)),
            _ => Target::Next,
        }
    }

    /// What the instruction at an address comes to, with the operands that it read.
    #[inline(always)]
    #[tactic(auto, using(crate::proofs::Flat::bits_kept), unfolding(crate::specs::Effects::executed))]
    pub fn execute(self, address: u32, a: u32, b: u32) -> Result<Effect, Cause>
        ensures { Gives (executed self address a b) result }
    {
        let imm = self.imm;
        let target = address.wrapping_add(imm);
        match self.mnemonic {
            Mnemonic::Lui => Ok(goes_on(address, imm)),
            Mnemonic::Auipc => Ok(goes_on(address, target)),
            Mnemonic::Jal => jumps(address.wrapping_add(4), target, None),
            Mnemonic::Jalr => jumps(address.wrapping_add(4), a.wrapping_add(imm) / 2 * 2, None),
            Mnemonic::Beq => branches(address, target, Condition::Eq.holds(a, b)),
            Mnemonic::Bne => branches(address, target, Condition::Ne.holds(a, b)),
            Mnemonic::Blt => branches(address, target, Condition::Lt.holds(a, b)),
            Mnemonic::Bge => branches(address, target, Condition::Ge.holds(a, b)),
            Mnemonic::Bltu => branches(address, target, Condition::Ltu.holds(a, b)),
            Mnemonic::Bgeu => branches(address, target, Condition::Geu.holds(a, b)),
            Mnemonic::Lb
            | Mnemonic::Lh
            | Mnemonic::Lw
            | Mnemonic::Lbu
            | Mnemonic::Lhu
            | Mnemonic::Sb
            | Mnemonic::Sh
            | Mnemonic::Sw => Ok(goes_on(address, a.wrapping_add(imm))),
            Mnemonic::Addi => Ok(goes_on(address, arithmetic(RegisterOp::Add, a, imm))),
            Mnemonic::Slti => Ok(goes_on(address, arithmetic(RegisterOp::Slt, a, imm))),
            Mnemonic::Sltiu => Ok(goes_on(address, arithmetic(RegisterOp::Sltu, a, imm))),
            Mnemonic::Xori => Ok(goes_on(address, arithmetic(RegisterOp::Xor, a, imm))),
            Mnemonic::Ori => Ok(goes_on(address, arithmetic(RegisterOp::Or, a, imm))),
            Mnemonic::Andi => Ok(goes_on(address, arithmetic(RegisterOp::And, a, imm))),
            Mnemonic::Slli => Ok(goes_on(address, arithmetic(RegisterOp::Sll, a, imm))),
            Mnemonic::Srli => Ok(goes_on(address, arithmetic(RegisterOp::Srl, a, imm))),
            Mnemonic::Srai => Ok(goes_on(address, arithmetic(RegisterOp::Sra, a, imm))),
            Mnemonic::Add => Ok(goes_on(address, arithmetic(RegisterOp::Add, a, b))),
            Mnemonic::Sub => Ok(goes_on(address, arithmetic(RegisterOp::Sub, a, b))),
            Mnemonic::Sll => Ok(goes_on(address, arithmetic(RegisterOp::Sll, a, b))),
            Mnemonic::Slt => Ok(goes_on(address, arithmetic(RegisterOp::Slt, a, b))),
            Mnemonic::Sltu => Ok(goes_on(address, arithmetic(RegisterOp::Sltu, a, b))),
            Mnemonic::Xor => Ok(goes_on(address, arithmetic(RegisterOp::Xor, a, b))),
            Mnemonic::Srl => Ok(goes_on(address, arithmetic(RegisterOp::Srl, a, b))),
            Mnemonic::Sra => Ok(goes_on(address, arithmetic(RegisterOp::Sra, a, b))),
            Mnemonic::Or => Ok(goes_on(address, arithmetic(RegisterOp::Or, a, b))),
            Mnemonic::And => Ok(goes_on(address, arithmetic(RegisterOp::And, a, b))),
            Mnemonic::Fence | Mnemonic::Ecall | Mnemonic::Ebreak => Ok(goes_on(address, 0)),
        }
    }
}
