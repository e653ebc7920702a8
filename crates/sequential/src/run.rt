//! Steps in a row.
ghost use Rattle.std.specs.Prelude.{◌≡◌, ◌-◌, length, drop, IsSome};
ghost use Rattle.base.specs.Logs.{records, spare, room, slots_of};
ghost use Rattle.sequential.specs.Runs.{stopped_after};
ghost use Rattle.sequential.specs.Stepping.{RunsFrom, SameWorld};

use crate::machine::Machine;
use crate::record::{Retired, Stop};
use base::log::Log;
use memory::Memory;

impl<I: Memory, D: Memory> Machine<I, D> {
    /// Steps until the machine stops or the log is full; the stop, if it was that. Where the machine has stopped before,
    /// nothing retires and nothing changes.
    pub fn run(&mut self, log: &mut Log<Retired>) -> Option<Stop>
        ensures does { RunsFrom I.Memory.means.view D.Memory.means.view self.old log.old result
            self.new log.new }
        ensures world { SameWorld I.Memory.means.view D.Memory.means.view self.old self.new }
        ensures stopped { self.new.stopped ≡ stopped_after self.old.stopped result }
        ensures for_good { IsSome self.old.stopped → (self.new ≡ self.old) × (log.new ≡ log.old) }
        ensures spare { spare log.new
            ≡ drop (length (records log.new) - length (records log.old)) (spare log.old) }
        ensures room { room log.new ≡ room log.old }
        ensures lent { slots_of log.new ≡ slots_of log.old }
    {
        while !log.is_full() {
            match self.step() {
                Ok(retirement) => {
                    log.push(retirement.retired).unwrap();
                }
                Err(stop) => return Some(stop),
            }
        }
        None
    }
}
