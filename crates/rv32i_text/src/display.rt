//! Instructions and their operands as text.
ghost use Rattle.std.specs.Prelude.{Some};
ghost use Rattle.rv32i_text.specs.Assembly.{register_text, upper_text, assembly_text};

use crate::mnemonic::Mnemonic;
use rv32i::instruction::Instruction;
use rv32i::register::Register;
use std::fmt;

/// A register, shown by its number after an x.
#[derive(Clone, Copy)]
pub(crate) struct RegisterText(pub(crate) Register);

impl fmt::Display for RegisterText {
    ghost output = { λ x. Some (register_text x.0) };

    fn fmt<W: fmt::Write>(&self, f: &mut fmt::Formatter<W>) -> fmt::Result {
        write!(f, "x{}", self.0.number())
    }
}

/// The upper twenty bits in hexadecimal; low bits that should not be there are shown after a plus sign.
#[derive(Clone, Copy)]
pub(crate) struct UpperText(pub(crate) u32);

impl fmt::Display for UpperText {
    ghost output = { λ x. Some (upper_text x.0) };

    fn fmt<W: fmt::Write>(&self, f: &mut fmt::Formatter<W>) -> fmt::Result {
        let high = self.0 / 4096;
        let low = self.0 % 4096;
        if low == 0 {
            write!(f, "{high:x}")
        } else {
            write!(f, "{high:x}+{low:x}")
        }
    }
}

/// The line of an instruction.
#[derive(Clone, Copy)]
pub struct AssemblyText(pub Instruction);

impl fmt::Display for AssemblyText {
    ghost output = { λ x. Some (assembly_text x.0) };

    fn fmt<W: fmt::Write>(&self, f: &mut fmt::Formatter<W>) -> fmt::Result {
        match self.0 {
            Instruction::Lui { rd, imm } => {
                write!(f, "lui {},{}", RegisterText(rd), UpperText(imm))
            }
            Instruction::Auipc { rd, imm } => {
                write!(f, "auipc {},{}", RegisterText(rd), UpperText(imm))
            }
            Instruction::Jal { rd, offset } => { write!(f, "jal {},{offset}", RegisterText(rd)) }
            Instruction::Jalr { rd, rs1, offset } => {
                write!(
                    f,
                    "jalr {},{offset}({})",
                    RegisterText(rd),
                    RegisterText(rs1)
                )
            }
            Instruction::Branch {
                condition,
                rs1,
                rs2,
                offset,
            } => {
                write!(
                    f,
                    "{} {},{},{offset}",
                    condition.mnemonic(),
                    RegisterText(rs1),
                    RegisterText(rs2)
                )
            }
            Instruction::Load {
                kind,
                rd,
                rs1,
                offset,
            } => {
                write!(
                    f,
                    "{} {},{offset}({})",
                    kind.mnemonic(),
                    RegisterText(rd),
                    RegisterText(rs1)
                )
            }
            Instruction::Store {
                kind,
                rs1,
                rs2,
                offset,
            } => {
                write!(
                    f,
                    "{} {},{offset}({})",
                    kind.mnemonic(),
                    RegisterText(rs2),
                    RegisterText(rs1)
                )
            }
            Instruction::Immediate { op, rd, rs1, imm } => {
                write!(
                    f,
                    "{} {},{},{imm}",
                    op.mnemonic(),
                    RegisterText(rd),
                    RegisterText(rs1)
                )
            }
            Instruction::Shift {
                op,
                rd,
                rs1,
                amount,
            } => {
                write!(
                    f,
                    "{} {},{},{amount}",
                    op.mnemonic(),
                    RegisterText(rd),
                    RegisterText(rs1)
                )
            }
            Instruction::Register { op, rd, rs1, rs2 } => {
                write!(
                    f,
                    "{} {},{},{}",
                    op.mnemonic(),
                    RegisterText(rd),
                    RegisterText(rs1),
                    RegisterText(rs2)
                )
            }
            Instruction::Fence => f.write_str("fence"),
            Instruction::Ecall => f.write_str("ecall"),
            Instruction::Ebreak => f.write_str("ebreak"),
        }
    }
}
