//! Words beside their lines of assembly, worked out from the formats in the manual.
use base::refusal::Refusal;
use rv32i::effect::arithmetic;
use rv32i::instruction::{
    Condition, ImmediateOp, Instruction, LoadKind, RegisterOp, ShiftOp, StoreKind,
};
use rv32i::register::Register;
use rv32i_text::assembly;
use rv32i_words::decoding::decode;
use rv32i_words::encoding::encode;
use std::test::Fail;

/// Each of the forty, with the ends of the ranges and the bits of the immediates that stand apart.
const LINES: [(u32, &str); 47] = [
    (0x0020_81b3, "add x3,x1,x2"),
    (0x4073_02b3, "sub x5,x6,x7"),
    (0x0031_10b3, "sll x1,x2,x3"),
    (0x01df_2fb3, "slt x31,x30,x29"),
    (0x0020_30b3, "sltu x1,x0,x2"),
    (0x00c5_c533, "xor x10,x11,x12"),
    (0x0062_d233, "srl x4,x5,x6"),
    (0x40a4_d433, "sra x8,x9,x10"),
    (0x00f7_66b3, "or x13,x14,x15"),
    (0x0118_77b3, "and x15,x16,x17"),
    (0x0020_0093, "addi x1,x0,2"),
    (0xff01_0113, "addi x2,x2,-16"),
    (0xfff3_2293, "slti x5,x6,-1"),
    (0x0013_3293, "sltiu x5,x6,1"),
    (0xfff4_4393, "xori x7,x8,-1"),
    (0x7ff3_e313, "ori x6,x7,2047"),
    (0x8005_7493, "andi x9,x10,-2048"),
    (0x01f0_9093, "slli x1,x1,31"),
    (0x0041_d113, "srli x2,x3,4"),
    (0x41f1_d193, "srai x3,x3,31"),
    (0xfff3_0283, "lb x5,-1(x6)"),
    (0x0024_1383, "lh x7,2(x8)"),
    (0x0001_2083, "lw x1,0(x2)"),
    (0x7ff5_4483, "lbu x9,2047(x10)"),
    (0x8006_5583, "lhu x11,-2048(x12)"),
    (0x0042_80e7, "jalr x1,4(x5)"),
    (0xfe53_0fa3, "sb x5,-1(x6)"),
    (0x0074_1323, "sh x7,6(x8)"),
    (0x0011_2623, "sw x1,12(x2)"),
    (0x81ff_2023, "sw x31,-2048(x30)"),
    (0x0020_8463, "beq x1,x2,8"),
    (0xfe00_9ee3, "bne x1,x0,-4"),
    (0x7e41_cfe3, "blt x3,x4,4094"),
    (0x8062_d063, "bge x5,x6,-4096"),
    (0x0083_e0e3, "bltu x7,x8,2048"),
    (0x40a4_f063, "bgeu x9,x10,1024"),
    (0x1234_52b7, "lui x5,12345"),
    (0xffff_ff97, "auipc x31,fffff"),
    (0x0080_00ef, "jal x1,8"),
    (0xffdf_f06f, "jal x0,-4"),
    (0x0010_02ef, "jal x5,2048"),
    (0x8000_006f, "jal x0,-1048576"),
    (0x7fff_f16f, "jal x2,1048574"),
    (0x0000_11ef, "jal x3,4096"),
    (0x0ff0_000f, "fence"),
    (0x0000_0073, "ecall"),
    (0x0010_0073, "ebreak"),
];

/// Both ways: the word holds the line, and the line's instruction has the word.
#[test]
fn words_and_lines(rt: HostRuntime) -> Result<(), Fail> {
    for (word, line) in LINES {
        let instruction = decode(word).ok_or_else(|| Fail::new("illegal"))?;
        let text = assembly(rt.alloc(), instruction)?;
        assert_eq!(rt; text.as_str(), line);
        assert_eq!(rt; encode(instruction), Ok(word));
    }
    Ok(())
}

/// `fence.i`, a shift with a bit in funct7, zeros, ones, `mul`, `sll` and `srli` with a wrong funct7, funct3 that no
/// branch, load, store or `jalr` has, an `ecall` with a register, `wfi`, `mret`, and a word of 16 bits.
#[test]
fn all_else_is_illegal(rt: HostRuntime) {
    for word in [
        0x0000_100f,
        0x0200_9093,
        0x0000_0000,
        0xffff_ffff,
        0x0220_81b3,
        0x4031_10b3,
        0x2000_5013,
        0x0000_2063,
        0x0000_3003,
        0x0000_3023,
        0x0000_1067,
        0x0000_00f3,
        0x1050_0073,
        0x3020_0073,
        0x0000_0001,
    ] {
        assert!(rt; decode(word).is_none());
    }
}

/// Whatever else a fence has in its word, it is the one fence, and that has one word.
#[test]
fn all_fences_are_one(rt: HostRuntime) -> Result<(), Fail> {
    for word in [0x0000_000f, 0x8330_000f, 0x0ff0_8f8f] {
        let instruction = decode(word).ok_or_else(|| Fail::new("illegal"))?;
        let text = assembly(rt.alloc(), instruction)?;
        assert_eq!(rt; text.as_str(), "fence");
        assert_eq!(rt; encode(instruction), Ok(0x0ff0_000f));
    }
    Ok(())
}

fn addi(rd: Register, rs1: Register, imm: i32) -> Instruction {
    let op = ImmediateOp::Add;
    Instruction::Immediate { op, rd, rs1, imm }
}

fn lw(rd: Register, rs1: Register, offset: i32) -> Instruction {
    let kind = LoadKind::Word;
    Instruction::Load {
        kind,
        rd,
        rs1,
        offset,
    }
}

fn sw(rs1: Register, rs2: Register, offset: i32) -> Instruction {
    let kind = StoreKind::Word;
    Instruction::Store {
        kind,
        rs1,
        rs2,
        offset,
    }
}

fn beq(rs1: Register, rs2: Register, offset: i32) -> Instruction {
    let condition = Condition::Eq;
    Instruction::Branch {
        condition,
        rs1,
        rs2,
        offset,
    }
}

fn slli(rd: Register, rs1: Register, amount: u8) -> Instruction {
    let op = ShiftOp::Sll;
    Instruction::Shift {
        op,
        rd,
        rs1,
        amount,
    }
}

/// One past each end of a range, odd offsets, a shift by 32 and low bits in an upper immediate.
#[test]
fn no_word_holds_it(rt: HostRuntime) -> Result<(), Fail> {
    let rd = Register::new(1)?;
    let rs1 = Register::new(2)?;
    let rs2 = rd;
    for instruction in [
        addi(rd, rs1, 2048),
        addi(rd, rs1, -2049),
        lw(rd, rs1, 2048),
        sw(rs1, rs2, -2049),
        Instruction::Jalr {
            rd,
            rs1,
            offset: 2048,
        },
        beq(rs1, rs2, 4096),
        beq(rs1, rs2, -4098),
        beq(rs1, rs2, 3),
        Instruction::Jal {
            rd,
            offset: 1_048_576,
        },
        Instruction::Jal {
            rd,
            offset: -1_048_578,
        },
        Instruction::Jal { rd, offset: 5 },
        slli(rd, rs1, 32),
        slli(rd, rs1, 255),
        Instruction::Lui { rd, imm: 1 },
        Instruction::Auipc { rd, imm: 0x1800 },
    ] {
        assert_eq!(rt; encode(instruction), Err(Refusal::NoWord));
    }
    assert_eq!(rt; Refusal::NoWord.number(), 10);
    Ok(())
}

/// Sums wrap, a shift goes by the low five bits, and `slt` and `sra` see the sign.
#[test]
fn arithmetic_on_two_operands(rt: HostRuntime) {
    for (op, a, b, result) in [
        (RegisterOp::Add, 0xffff_ffff, 2, 1),
        (RegisterOp::Sub, 1, 2, 0xffff_ffff),
        (RegisterOp::Sll, 0x8000_0001, 33, 2),
        (RegisterOp::Slt, 0xffff_ffff, 0, 1),
        (RegisterOp::Slt, 0, 0x8000_0000, 0),
        (RegisterOp::Sltu, 0xffff_ffff, 0, 0),
        (RegisterOp::Sltu, 0, 0x8000_0000, 1),
        (RegisterOp::Xor, 0b1100, 0b1010, 0b0110),
        (RegisterOp::Srl, 0x8000_0000, 31, 1),
        (RegisterOp::Sra, 0x8000_0000, 31, 0xffff_ffff),
        (RegisterOp::Sra, 0x4000_0000, 30, 1),
        (RegisterOp::Or, 0b1100, 0b1010, 0b1110),
        (RegisterOp::And, 0b1100, 0b1010, 0b1000),
    ] {
        assert_eq!(rt; arithmetic(op, a, b), result);
    }
}
