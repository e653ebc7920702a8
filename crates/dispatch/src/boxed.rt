//! A memory on the heap.
ghost use Rattle.std.specs.Prelude.{◌≡◌, IfOk, IfErr};
ghost use Rattle.dispatch.specs.Boxes.{inside, boxed_means};
ghost use Rattle.dispatch.specs.BoxLaws.{boxed_lawful};

use base::bus::Lanes;
use memory::{Memory, Unserved};
use std::alloc::{AllocFailed, Global};

/// A memory on the heap, which does what it does elsewhere.
#[derive(Drop)]
pub struct Boxed<M: Memory> {
    memory: Box<M>,
}

impl<M: Memory> Boxed<M> {
    /// Puts a memory on the heap; gives it back where there is no room.
    pub fn new(heap: Global, memory: M) -> Result<Boxed<M>, AllocFailed<M>>
        ensures made { IfOk result (λ b. inside b ≡ memory) }
        ensures refused { IfErr result (λ back. back.value ≡ memory) }
    {
        Ok(Boxed {
            memory: Box::new(heap, memory)?,
        })
    }
}

impl<M: Memory> Memory for Boxed<M> {
    ghost means = { boxed_means M.Memory.means };

    ghost obeys = { boxed_lawful M.Memory.obeys };

    fn read(&mut self, address: u32) -> Result<u32, Unserved> {
        self.memory.read(address)
    }

    fn write(&mut self, address: u32, word: u32, lanes: Lanes) -> Result<(), Unserved> {
        self.memory.write(address, word, lanes)
    }

    fn idle(&mut self) {
        self.memory.idle()
    }

    fn peek(&self, address: u32) -> Option<u8> {
        self.memory.peek(address)
    }

    fn longest(&self) -> u32 {
        self.memory.longest()
    }

    fn size(&self) -> u32 {
        self.memory.size()
    }
}
