//! The decode stage: D goes to X, with its operands.
ghost use Rattle.std.specs.Prelude.{◌≡◌};
ghost use Rattle.clocking.specs.Decode.{early_value, late_value, source, with_operands, decode_stage};
ghost use Rattle.clock.specs.Decode.{rd_of, written_of, values};

use crate::execute::stall;
use clocking::latch::{Completed, Decoded, Executed, Fetched, Latch};
use clocking::stage::Flow;
use rv32i::effect::Access;
use rv32i::micro_op::MicroOp;
use rv32i::register::Register;
use rv32i::registers::Registers;
use sequential::record::Stop;

/// The value that X forwards: a load has none yet.
#[inline(always)]
fn early_value(access: Option<Access>, value: u32) -> Option<u32>
    ensures { result ≡ early_value access value }
{
    match access {
        Some(Access::Load(_)) => None,
        Some(Access::Store(_)) | None => Some(value),
    }
}

/// The value that M forwards, if it went to W.
#[inline(always)]
fn late_value(answer: &Latch<Completed>) -> Option<u32>
    ensures { result ≡ late_value answer.now }
{
    match *answer {
        Latch::Full(c) => Some(c.value),
        Latch::Empty | Latch::Faulting(_) => None,
    }
}

/// The register that M writes, if it writes one.
#[inline(always)]
pub fn rd_of(m: &Latch<Executed>) -> Option<Register>
    ensures { result ≡ rd_of m.now }
{
    match m {
        Latch::Full(e) => e.rd,
        Latch::Empty | Latch::Faulting(_) => None,
    }
}

/// The register that W writes, if it writes one, and the value.
#[derive(Clone, Copy)]
pub struct Written {
    pub rd: Option<Register>,
    pub value: u32,
}

impl Written {
    /// What W writes.
    #[inline(always)]
    pub fn of(w: &Latch<Completed>) -> Written
        ensures { result ≡ written_of w.now }
    {
        match w {
            Latch::Full(c) => Written {
                rd: c.rd,
                value: c.value,
            },
            Latch::Empty | Latch::Faulting(_) => Written { rd: None, value: 0 },
        }
    }
}

/// What decode reads of the older instructions: X with this clock's result, which is in M if M moved; the register of the old
/// M, with this clock's answer; what the old W wrote, and the register file that it was written back to.
#[derive(Clone, Copy)]
pub struct InFlight<'a> {
    pub flow: Flow,
    pub x: &'a Latch<Executed>,
    pub m: Option<Register>,
    pub answer: &'a Latch<Completed>,
    pub w: Written,
    pub registers: &'a Registers,
}

impl InFlight<'_> {
    /// The value of a register, of the youngest that writes it: X, then M, then W, else the register file.
    #[inline(always)]
    fn forward(self, r: Register) -> Option<u32>
        ensures { result ≡ values self.entry r }
    {
        if self.flow == Flow::Moves
            && let Latch::Full(e) = self.x
            && e.rd == Some(r)
        {
            early_value(e.access, e.result)
        } else if let Some(rd) = self.m
            && rd == r
        {
            late_value(self.answer)
        } else if let Some(rd) = self.w.rd
            && rd == r
        {
            Some(self.w.value)
        } else {
            Some(self.registers.read(Some(r)))
        }
    }

    /// An operand: 0 where no register is read.
    #[inline(always)]
    fn source(self, register: Option<Register>) -> Option<u32>
        ensures { result ≡ source (values self.entry) register }
    {
        match register {
            Some(r) => self.forward(r),
            None => Some(0),
        }
    }
}

/// The instruction goes to X with its operands, or stalls while one is not there.
#[inline(always)]
fn with_operands(
    f: &Fetched,
    instruction: &MicroOp,
    a: Option<u32>,
    b: Option<u32>,
    x: &mut Latch<Decoded>,
) -> Flow
    ensures x { x.new ≡ (with_operands f.now instruction.now a b).x }
    ensures flow { result ≡ (with_operands f.now instruction.now a b).flow }
{
    let (Some(a), Some(b)) = (a, b) else {
        *x = Latch::Empty;
        return Flow::Stalls;
    };
    *x = Latch::Full(Decoded {
        address: f.address,
        word: f.word,
        instruction: *instruction,
        rd: instruction.destination(),
        a,
        b,
        guess: f.guess,
    });
    Flow::Moves
}

/// D is dropped after a rollback and stalls while X stalls; else it goes to X, unless an operand is not there.
#[inline(always)]
pub fn decode_stage(
    in_flight: InFlight<'_>,
    d: &Latch<Fetched>,
    flow: Flow,
    x: &mut Latch<Decoded>,
) -> Flow
    ensures x { x.new ≡ (decode_stage (values in_flight.entry) x.old d.now flow).x }
    ensures flow { result ≡ (decode_stage (values in_flight.entry) x.old d.now flow).flow }
{
    match flow {
        Flow::RollsBack => {
            *x = Latch::Empty;
            Flow::RollsBack
        }
        Flow::Stalls => stall(d),
        Flow::Moves => match d {
            Latch::Empty => {
                *x = Latch::Empty;
                Flow::Moves
            }
            Latch::Faulting(stop) => {
                *x = Latch::Faulting(*stop);
                Flow::Moves
            }
            Latch::Full(f) => match &f.issued {
                Err(cause) => {
                    *x = Latch::Faulting(Stop {
                        address: f.address,
                        cause: *cause,
                    });
                    Flow::Moves
                }
                Ok(i) => {
                    let a = in_flight.source(i.first_source());
                    let b = in_flight.source(i.second_source());
                    with_operands(f, i, a, b, x)
                }
            },
        },
    }
}
