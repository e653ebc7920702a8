//! Images as the programs take them, and the data memory beside them.
#![tactic(auto)]

ghost use Rattle.std.specs.Prelude.{◌≡◌, true, length, vec_len};
ghost use Rattle.memory.specs.Flat.{flat_fits, flat_bytes, flat_size};

mod data;
mod from_words;
mod padding;
#[cfg(test)]
mod tests;

pub use data::data_memory;
pub use from_words::bytes_of;
use memory::Flat;
pub use padding::padded;

/// An image of as many bytes as a flat memory can have.
#[derive(Drop)]
pub struct PaddedImage {
    bytes: Vec<u8>,
    ghost fits: { flat_fits (vec_len bytes) ≡ true },
}

impl PaddedImage {
    /// The bytes, with the padding.
    pub fn bytes(&self) -> &[u8]
        ensures { result.now ≡ self.now.bytes.items }
    {
        &self.bytes
    }

    /// The flat memory of the bytes.
    pub fn into_memory(self) -> Flat
        ensures bytes { flat_bytes result ≡ self.bytes }
        ensures size { flat_size result ≡ length self.bytes.items }
    {
        Flat::new(self.into_bytes())
    }

    /// The bytes, as what a flat memory is made of.
    pub fn into_bytes(self) -> Vec<u8>
        ensures bytes { result ≡ self.bytes }
        ensures fits { flat_fits (vec_len result) ≡ true }
    {
        self.bytes
    }
}
