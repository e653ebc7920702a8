//! What can be read of a machine, also while it is held and after it has stopped.
ghost use Rattle.std.specs.Prelude.{◌≡◌, ◌<◌};
ghost use Rattle.memory.specs.Meaning.{ByteRead};
ghost use Rattle.rv32i.specs.Registers.{RegisterRead};
ghost use Rattle.pipeline.specs.Readings.{totals};

use crate::machine::{Machine, Totals};
use base::refusal::Refusal;
use clock::counts::in_flight_count;
use clocking::latch::Latches;
use memory::{Memory, byte_at};
use predictor::Predictor;
use sequential::record::Stop;

impl<P: Predictor, I: Memory, D: Memory> Machine<P, I, D> {
    /// The serial that its tokens bear.
    pub fn serial(&self) -> u16
        ensures { result ≡ self.now.serial }
    {
        self.serial
    }

    /// Whether a token is out.
    pub fn is_held(&self) -> bool
        ensures { result ≡ self.now.held }
    {
        self.held
    }

    /// The value of a register, 0 for x0; refused above 31.
    pub fn register(&self, number: u32) -> Result<u32, Refusal>
        ensures { RegisterRead self.now.core.registers number result }
    {
        self.core.registers.get(number)
    }

    /// The data byte at an address; refused outside.
    pub fn byte(&self, address: u32) -> Result<u8, Refusal>
        ensures { ByteRead D.Memory.means.view self.now.core.data_memory address result }
    {
        byte_at(&self.core.data_memory, address)
    }

    /// The address to fetch.
    pub fn fetch_address(&self) -> u32
        ensures { result ≡ self.now.core.latches.f }
    {
        self.latches().f
    }

    /// The address to fetch, and the latches before decode, execute, data and write-back.
    pub fn latches(&self) -> Latches
        ensures { result ≡ self.now.core.latches }
    {
        self.core.latches
    }

    /// Where and why the machine stopped, if it has.
    pub fn stopped(&self) -> Option<Stop>
        ensures { result ≡ self.now.core.stopped }
    {
        self.core.stopped
    }

    /// The counts of clocks and of instructions.
    pub fn counts(&self) -> Totals
        ensures { result ≡ totals self.now }
    {
        let core = &self.core;
        Totals {
            clocks: core.counts.clocks,
            fetched: core.counts.fetched,
            retired: core.counts.retired,
            dropped: core.counts.dropped,
            in_flight: in_flight_count(&core.latches),
            stopped: u32::from(core.stopped.is_some()),
        }
    }
}
