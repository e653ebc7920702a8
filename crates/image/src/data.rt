//! The data memory that a program has beside its image.
ghost use Rattle.std.specs.Prelude.{◌≡◌, replicate, IfOk, vec_items};
ghost use Rattle.memory.specs.Flat.{flat_bytes, flat_size};

use memory::Flat;
use std::alloc::{AllocError, Global};

/// How many zero bytes of data a program has.
const DATA: usize = 4096;

/// A program's data memory, all zeros.
pub fn data_memory(heap: Global) -> Result<Flat, AllocError>
    ensures { IfOk result (λ m. (vec_items (flat_bytes m) ≡ replicate 4096 0) × (flat_size m ≡ 4096)) }
{
    Ok(Flat::new(vec![in heap; 0u8; DATA]?))
}
