//! Machines that can be run and then looked at, whichever they are.
use crate::account::Account;
use base::log::Log;
use base::refusal::Refusal;
use clocking::state::ClockRecord;
use memory::Memory;
use pipeline::journal::Journal;
use pipeline::machine::RetiredAt;
use predictor::Predictor;
use sequential::record::{Retired, Stop};
use std::alloc::{AllocError, Global};
use vectors::digest::Digest;

/// How many instructions or clocks a part of a run has at most.
const ROOM: usize = 256;

/// The most parts of a run, which so ends after 4194304 instructions of the sequential machine, or clocks of a pipeline.
const PARTS: u32 = 16384;

/// A machine of either kind.
pub trait Runner {
    /// Runs on for a while, or until it stops, and adds what retires to an account.
    fn run_on(&mut self, account: &mut Account) -> Result<(), AllocError>;

    /// Where and why it stopped, if it has.
    fn stop(&self) -> Option<Stop>;

    /// The value of a register.
    fn value(&self, number: u32) -> Result<u32, Refusal>;

    /// A byte of the data memory.
    fn data(&self, address: u32) -> Result<u8, Refusal>;
}

impl<I: Memory, D: Memory> Runner for sequential::machine::Machine<I, D> {
    fn run_on(&mut self, account: &mut Account) -> Result<(), AllocError> {
        let mut slots = [Retired::EMPTY; ROOM];
        let mut log = Log::new(&mut slots);
        self.run(&mut log);
        for record in log.records() {
            account.retire(*record)?;
        }
        Ok(())
    }

    fn stop(&self) -> Option<Stop> {
        self.stopped()
    }

    fn value(&self, number: u32) -> Result<u32, Refusal> {
        self.register(number)
    }

    fn data(&self, address: u32) -> Result<u8, Refusal> {
        self.byte(address)
    }
}

impl<P: Predictor, I: Memory, D: Memory> Runner for pipeline::machine::Machine<P, I, D> {
    fn run_on(&mut self, account: &mut Account) -> Result<(), AllocError> {
        let mut retired_slots = [RetiredAt::EMPTY; ROOM];
        let mut clock_slots = [ClockRecord::EMPTY; ROOM];
        let mut journal = Journal::new(&mut retired_slots, &mut clock_slots);
        self.run(ROOM as u32, &mut journal);
        for record in journal.retirements.records() {
            account.retire(record.retired)?;
        }
        Ok(())
    }

    fn stop(&self) -> Option<Stop> {
        self.stopped()
    }

    fn value(&self, number: u32) -> Result<u32, Refusal> {
        self.register(number)
    }

    fn data(&self, address: u32) -> Result<u8, Refusal> {
        self.byte(address)
    }
}

/// The word of the data memory at an address; 0 for a byte that is not there.
fn word_at<R: Runner>(machine: &R, address: u32) -> u32 {
    let byte = |place| machine.data(address.wrapping_add(place)).unwrap_or(0);
    u32::from_le_bytes([0, 1, 2, 3].map(byte))
}

/// Adds what the registers hold.
fn registers<R: Runner>(machine: &R, account: &mut Account) -> Result<(), AllocError> {
    for number in 0..32 {
        account.register(number, machine.value(number).unwrap_or(0))?;
    }
    Ok(())
}

/// Adds what the memory holds, and which words are not those of the image.
fn memory<R: Runner>(machine: &R, image: &[u8], account: &mut Account) -> Result<(), AllocError> {
    let mut digest = Digest::new();
    for (address, bytes) in (0..=u32::MAX).step_by(4).zip(image.chunks_exact(4)) {
        let word = word_at(machine, address);
        digest = digest.word(word);
        if word.to_le_bytes().as_slice() != bytes {
            account.changed(address, word)?;
        }
    }
    account.memory(digest)
}

/// Runs a machine until it stops, or up to the limit, and adds what retires to an account.
pub fn run<R: Runner>(machine: &mut R, account: &mut Account) -> Result<(), AllocError> {
    for _ in 0..PARTS {
        if machine.stop().is_some() {
            break;
        }
        machine.run_on(account)?;
    }
    Ok(())
}

/// Adds how the run of a machine that was loaded with this image ended, and what the machine holds then.
pub fn look<R: Runner>(machine: &R, image: &[u8], account: &mut Account) -> Result<(), AllocError> {
    account.end(machine.stop())?;
    registers(machine, account)?;
    memory(machine, image, account)
}
