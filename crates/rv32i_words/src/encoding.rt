//! From instructions to words.
ghost use Rattle.std.specs.Prelude.{◌≡◌, Some, IfOk};
ghost use Rattle.rv32i_words.specs.Words.{decoded, encoded, Encodes, condition_code, load_code, store_code, immediate_code, shift_codes, register_codes, word_b, word_i, word_j, word_s, word_u};

use crate::field::Field;
use crate::fields::Fields;
use base::refusal::Refusal;
use rv32i::instruction::{
    Condition, ImmediateOp, Instruction, LoadKind, RegisterOp, ShiftOp, StoreKind,
};
use rv32i::register::Register;

// The opcodes of the formats that have a register or an immediate.

const LUI: Field<7> = Field { value: 0x37 };

const AUIPC: Field<7> = Field { value: 0x17 };

const JAL: Field<7> = Field { value: 0x6f };

const JALR: Field<7> = Field { value: 0x67 };

const BRANCH: Field<7> = Field { value: 0x63 };

const LOAD: Field<7> = Field { value: 0x03 };

const STORE: Field<7> = Field { value: 0x23 };

const OP_IMM: Field<7> = Field { value: 0x13 };

const OP: Field<7> = Field { value: 0x33 };

const JALR_FUNCT3: Field<3> = Field { value: 0 };

impl From<Condition> for Field<3> {
    ghost from_gives = { λ condition x. x.value ≡ condition_code condition };

    fn from(condition: Condition) -> Field<3> {
        Field {
            value: match condition {
                Condition::Eq => 0,
                Condition::Ne => 1,
                Condition::Lt => 4,
                Condition::Ge => 5,
                Condition::Ltu => 6,
                Condition::Geu => 7,
            },
        }
    }
}

impl From<LoadKind> for Field<3> {
    ghost from_gives = { λ kind x. x.value ≡ load_code kind };

    fn from(kind: LoadKind) -> Field<3> {
        Field {
            value: match kind {
                LoadKind::Byte => 0,
                LoadKind::Half => 1,
                LoadKind::Word => 2,
                LoadKind::ByteUnsigned => 4,
                LoadKind::HalfUnsigned => 5,
            },
        }
    }
}

impl From<StoreKind> for Field<3> {
    ghost from_gives = { λ kind x. x.value ≡ store_code kind };

    fn from(kind: StoreKind) -> Field<3> {
        Field {
            value: match kind {
                StoreKind::Byte => 0,
                StoreKind::Half => 1,
                StoreKind::Word => 2,
            },
        }
    }
}

impl From<ImmediateOp> for Field<3> {
    ghost from_gives = { λ op x. x.value ≡ immediate_code op };

    fn from(op: ImmediateOp) -> Field<3> {
        Field {
            value: match op {
                ImmediateOp::Add => 0,
                ImmediateOp::Slt => 2,
                ImmediateOp::Sltu => 3,
                ImmediateOp::Xor => 4,
                ImmediateOp::Or => 6,
                ImmediateOp::And => 7,
            },
        }
    }
}

/// The codes of an operation that has two.
#[derive(Clone, Copy)]
struct Codes {
    funct3: Field<3>,
    funct7: Field<7>,
}

impl From<ShiftOp> for Codes {
    ghost from_gives = { λ op x. (x.funct3.value, x.funct7.value) ≡ shift_codes op };

    fn from(op: ShiftOp) -> Codes {
        let (funct3, funct7) = match op {
            ShiftOp::Sll => (1, 0x00),
            ShiftOp::Srl => (5, 0x00),
            ShiftOp::Sra => (5, 0x20),
        };
        Codes {
            funct3: Field { value: funct3 },
            funct7: Field { value: funct7 },
        }
    }
}

impl From<RegisterOp> for Codes {
    ghost from_gives = { λ op x. (x.funct3.value, x.funct7.value) ≡ register_codes op };

    fn from(op: RegisterOp) -> Codes {
        let (funct3, funct7) = match op {
            RegisterOp::Add => (0, 0x00),
            RegisterOp::Sub => (0, 0x20),
            RegisterOp::Sll => (1, 0x00),
            RegisterOp::Slt => (2, 0x00),
            RegisterOp::Sltu => (3, 0x00),
            RegisterOp::Xor => (4, 0x00),
            RegisterOp::Srl => (5, 0x00),
            RegisterOp::Sra => (5, 0x20),
            RegisterOp::Or => (6, 0x00),
            RegisterOp::And => (7, 0x00),
        };
        Codes {
            funct3: Field { value: funct3 },
            funct7: Field { value: funct7 },
        }
    }
}

/// A word of the U format.
fn word_u(opcode: Field<7>, rd: Register, imm: u32) -> Result<u32, Refusal>
    ensures { Encodes (word_u opcode.value rd.number imm) result }
{
    if imm % 4096 != 0 {
        return Err(Refusal::NoWord);
    }
    let fields = Fields {
        opcode,
        rd: rd.into(),
        funct3: Field::at(imm, 12),
        rs1: Field::at(imm, 15),
        rs2: Field::at(imm, 20),
        funct7: Field::at(imm, 25),
    };
    Ok(fields.word())
}

/// A word of the J format.
fn word_j(opcode: Field<7>, rd: Register, offset: i32) -> Result<u32, Refusal>
    ensures { Encodes (word_j opcode.value rd.number offset) result }
{
    let n = Field::<21>::of_signed(offset)?.even()?;
    let fields = Fields {
        opcode,
        rd: rd.into(),
        funct3: Field::at(n.value, 12),
        rs1: Field::at(n.value, 15),
        rs2: n.offset_low(),
        funct7: n.offset_high(),
    };
    Ok(fields.word())
}

/// A word of the I format.
fn word_i(
    opcode: Field<7>,
    funct3: Field<3>,
    rd: Register,
    rs1: Register,
    imm: i32,
) -> Result<u32, Refusal>
    ensures { Encodes (word_i opcode.value funct3.value rd.number rs1.number imm) result }
{
    let n = Field::<12>::of_signed(imm)?;
    let fields = Fields {
        opcode,
        rd: rd.into(),
        funct3,
        rs1: rs1.into(),
        rs2: Field::at(n.value, 0),
        funct7: Field::at(n.value, 5),
    };
    Ok(fields.word())
}

/// A word of the S format.
fn word_s(
    opcode: Field<7>,
    funct3: Field<3>,
    rs1: Register,
    rs2: Register,
    offset: i32,
) -> Result<u32, Refusal>
    ensures { Encodes (word_s opcode.value funct3.value rs1.number rs2.number offset) result }
{
    let n = Field::<12>::of_signed(offset)?;
    let fields = Fields {
        opcode,
        rd: Field::at(n.value, 0),
        funct3,
        rs1: rs1.into(),
        rs2: rs2.into(),
        funct7: Field::at(n.value, 5),
    };
    Ok(fields.word())
}

/// A word of the B format.
fn word_b(
    opcode: Field<7>,
    funct3: Field<3>,
    rs1: Register,
    rs2: Register,
    offset: i32,
) -> Result<u32, Refusal>
    ensures { Encodes (word_b opcode.value funct3.value rs1.number rs2.number offset) result }
{
    let n = Field::<13>::of_signed(offset)?.even()?;
    let fields = Fields {
        opcode,
        rd: n.offset_low(),
        funct3,
        rs1: rs1.into(),
        rs2: rs2.into(),
        funct7: n.offset_high(),
    };
    Ok(fields.word())
}

/// The word of a shift by an immediate.
fn word_shift(op: ShiftOp, rd: Register, rs1: Register, amount: u8) -> Result<u32, Refusal>
    ensures { Encodes (encoded (Instruction.Shift op rd rs1 amount)) result }
{
    if amount > 31 {
        return Err(Refusal::NoWord);
    }
    let codes = Codes::from(op);
    let fields = Fields {
        opcode: OP_IMM,
        rd: rd.into(),
        funct3: codes.funct3,
        rs1: rs1.into(),
        rs2: Field {
            value: u32::from(amount),
        },
        funct7: codes.funct7,
    };
    Ok(fields.word())
}

/// The word of an operation on two registers.
fn word_r(op: RegisterOp, rd: Register, rs1: Register, rs2: Register) -> u32
    ensures { encoded (Instruction.Register op rd rs1 rs2) ≡ Some result }
{
    let codes = Codes::from(op);
    let fields = Fields {
        opcode: OP,
        rd: rd.into(),
        funct3: codes.funct3,
        rs1: rs1.into(),
        rs2: rs2.into(),
        funct7: codes.funct7,
    };
    fields.word()
}

fn word_for(instruction: Instruction) -> Result<u32, Refusal>
    ensures { Encodes (encoded instruction) result }
{
    match instruction {
        Instruction::Lui { rd, imm } => word_u(LUI, rd, imm),
        Instruction::Auipc { rd, imm } => word_u(AUIPC, rd, imm),
        Instruction::Jal { rd, offset } => word_j(JAL, rd, offset),
        Instruction::Jalr { rd, rs1, offset } => word_i(JALR, JALR_FUNCT3, rd, rs1, offset),
        Instruction::Branch {
            condition,
            rs1,
            rs2,
            offset,
        } => word_b(BRANCH, condition.into(), rs1, rs2, offset),
        Instruction::Load {
            kind,
            rd,
            rs1,
            offset,
        } => word_i(LOAD, kind.into(), rd, rs1, offset),
        Instruction::Store {
            kind,
            rs1,
            rs2,
            offset,
        } => word_s(STORE, kind.into(), rs1, rs2, offset),
        Instruction::Immediate { op, rd, rs1, imm } => { word_i(OP_IMM, op.into(), rd, rs1, imm) }
        Instruction::Shift {
            op,
            rd,
            rs1,
            amount,
        } => word_shift(op, rd, rs1, amount),
        Instruction::Register { op, rd, rs1, rs2 } => Ok(word_r(op, rd, rs1, rs2)),
        Instruction::Fence => Ok(0x0ff0_000f),
        Instruction::Ecall => Ok(0x0000_0073),
        Instruction::Ebreak => Ok(0x0010_0073),
    }
}

/// The word that holds an instruction; refused where a field cannot hold what the instruction has: an immediate out
/// of its range, an odd offset, a shift by more than 31, low bits in an upper immediate.
#[tactic(auto, using(crate::proofs::Round::decodes_back))]
pub fn encode(instruction: Instruction) -> Result<u32, Refusal>
    ensures is { Encodes (encoded instruction) result }
    ensures restored { IfOk result (λ w. decoded w ≡ Some instruction) }
{
    word_for(instruction)
}
