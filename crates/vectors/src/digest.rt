//! A digest of many bytes, so that long runs and whole memories can be compared by one number.
ghost use Rattle.std.specs.Prelude.{◌≡◌};
ghost use Rattle.vectors.specs.Digests.{offset_basis, with_byte, with_word};

/// FNV-1a of 64 bits.
#[derive(Clone, Copy, PartialEq, Eq, Debug)]
pub struct Digest(pub u64);

impl Digest {
    /// The digest of no bytes.
    pub fn new() -> Digest
        ensures { result.0 ≡ offset_basis }
    {
        Digest(0xcbf2_9ce4_8422_2325)
    }

    /// With one more byte.
    pub fn byte(self, byte: u8) -> Digest
        ensures { result.0 ≡ with_byte self.0 byte }
    {
        Digest((self.0 ^ u64::from(byte)).wrapping_mul(0x100_0000_01b3))
    }

    /// With the four bytes of a word, the lowest first.
    pub fn word(self, word: u32) -> Digest
        ensures { result.0 ≡ with_word self.0 word }
    {
        word.to_le_bytes()
            .iter()
            .fold(self, |digest, byte| digest.byte(*byte))
    }
}
