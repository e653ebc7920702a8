//! The machine that runs.
ghost use Rattle.std.specs.Prelude.{◌≡◌, ◌%◌, replicate, None, IsSome};
ghost use Rattle.memory.specs.Meaning.{Same, ByteRead};
ghost use Rattle.rv32i.specs.Causes.{Gives};
ghost use Rattle.rv32i.specs.Registers.{RegisterRead};
ghost use Rattle.rv32i.specs.Effects.{request};
ghost use Rattle.sequential.specs.Sequential.{fetch};
ghost use Rattle.sequential.specs.Stepping.{fetched_word, value_by_reply, Transferred, AdvancesFrom, StepsFrom, SameWorld};

use crate::fetch::fetchable;
use crate::record::{Retired, Retirement, Stop};
use base::bus::Request;
use base::refusal::Refusal;
use memory::{Answer, Memory, Reply, byte_at, insist};
use rv32i::cause::Cause;
use rv32i::effect::{Access, loaded, request};
use rv32i::registers::Registers;
use rv32i_words::decoding::issue;

/// The sequential machine over an instruction memory and a data memory. Where a memory waits, it is asked again until it does not.
#[derive(Drop)]
pub struct Machine<I: Memory, D: Memory> {
    address: u32,
    registers: Registers,
    instructions: I,
    data_memory: D,
    stopped: Option<Stop>,
}

impl<I: Memory, D: Memory> Machine<I, D> {
    /// At the start address, with zero registers.
    pub fn new(start: u32, instructions: I, data_memory: D) -> Machine<I, D>
        ensures address { result.address ≡ start }
        ensures registers { result.registers ≡ replicate 32 0 }
        ensures memories { (result.instructions ≡ instructions)
            × (result.data_memory ≡ data_memory) }
        ensures stopped { result.stopped ≡ None }
    {
        Machine {
            address: start,
            registers: Registers::new(),
            instructions,
            data_memory,
            stopped: None,
        }
    }
}

/// The word that a fetch was answered; no other answer has one.
fn fetched_word(reply: Reply) -> Result<u32, Cause>
    ensures { Gives (fetched_word reply) result }
{
    match reply {
        Ok(Answer::Word(word)) => Ok(word),
        Ok(Answer::Done) | Err(_) => Err(Cause::InstructionAccessFault),
    }
}

/// The word at an address of the instruction memory, or why there is none.
#[tactic(auto, using(crate::proofs::Answered::fetch_faults, crate::proofs::Answered::fetches, memory::proofs::Rules::same_as))]
fn fetch<I: Memory>(instructions: &mut I, address: u32) -> Result<u32, Cause>
    ensures word { let view = I.Memory.means.view in
        Gives (fetch (view.size instructions.old) (view.byte instructions.old) address) result }
    ensures same { Same I.Memory.means.view instructions.old instructions.new }
{
    fetchable(instructions.size(), address)?;
    let answer = insist(instructions, Request::Read { address });
    fetched_word(answer.reply)
}

/// The value of an instruction that has the result of its execution, once the data memory has replied.
fn value_by_reply(access: Option<Access>, res: u32, reply: Reply) -> u32
    ensures { result ≡ value_by_reply access res reply }
{
    match reply {
        Ok(Answer::Word(word)) => loaded(access, res, word),
        Ok(Answer::Done) | Err(_) => res,
    }
}

/// Does an instruction's part in the data memory, if it has one, and gives its value.
#[tactic(auto, using(crate::proofs::Answered::transfers))]
fn transfer<D: Memory>(
    data_memory: &mut D,
    access: Option<Access>,
    res: u32,
    b: u32,
) -> Result<u32, Cause>
    ensures { let view = D.Memory.means.view in
        Transferred view data_memory.old (request (view.size data_memory.old) access res b)
        access res result data_memory.new }
{
    match request(data_memory.size(), access, res, b)? {
        None => Ok(res),
        Some(request) => {
            let answer = insist(data_memory, request);
            Ok(value_by_reply(access, res, answer.reply))
        }
    }
}

impl<I: Memory, D: Memory> Machine<I, D> {
    /// Does the instruction at the machine's address, unless there is a cause to stop.
    fn advance(&mut self) -> Result<Retirement, Cause>
        ensures does { AdvancesFrom I.Memory.means.view D.Memory.means.view self.old result
            self.new }
        ensures world { SameWorld I.Memory.means.view D.Memory.means.view self.old self.new }
        ensures stopped { self.new.stopped ≡ self.old.stopped }
    {
        let address = self.address;
        let word = fetch(&mut self.instructions, address)?;
        let instruction = issue(word)?;
        let a = self.registers.read(instruction.first_source());
        let b = self.registers.read(instruction.second_source());
        let effect = instruction.execute(address, a, b)?;
        let value = transfer(
            &mut self.data_memory,
            instruction.access(),
            effect.result,
            b,
        )?;
        let rd = instruction.destination();
        self.registers.write(rd, value);
        self.address = effect.next;
        Ok(Retirement {
            retired: Retired::new(address, word, rd, value),
            outcome: effect.outcome,
        })
    }

    /// One instruction: it retires, or the machine stops for good and changes no more; then each step answers that stop.
    pub fn step(&mut self) -> Result<Retirement, Stop>
        ensures does { StepsFrom I.Memory.means.view D.Memory.means.view self.old result self.new }
        ensures world { SameWorld I.Memory.means.view D.Memory.means.view self.old self.new }
        ensures for_good { IsSome self.old.stopped → self.new ≡ self.old }
        ensures aligned { self.old.address % 4 ≡ 0 → self.new.address % 4 ≡ 0 }
    {
        if let Some(stop) = self.stopped {
            return Err(stop);
        }
        match self.advance() {
            Ok(retirement) => Ok(retirement),
            Err(cause) => {
                let stop = Stop {
                    address: self.address,
                    cause,
                };
                self.stopped = Some(stop);
                Err(stop)
            }
        }
    }

    /// The address of the next instruction, or of the one at which the machine stopped.
    pub fn address(&self) -> u32
        ensures { result ≡ self.now.address }
    {
        self.address
    }

    /// The value of a register, 0 for x0; refused above 31.
    pub fn register(&self, number: u32) -> Result<u32, Refusal>
        ensures { RegisterRead self.now.registers number result }
    {
        self.registers.get(number)
    }

    /// The data byte at an address; refused outside.
    pub fn byte(&self, address: u32) -> Result<u8, Refusal>
        ensures { ByteRead D.Memory.means.view self.now.data_memory address result }
    {
        byte_at(&self.data_memory, address)
    }

    /// Where and why the machine stopped, if it has.
    pub fn stopped(&self) -> Option<Stop>
        ensures { result ≡ self.now.stopped }
    {
        self.stopped
    }
}
