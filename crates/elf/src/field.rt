//! The fields of headers.
ghost use Rattle.std.specs.Prelude.{◌≡◌, ◌+◌, ◌≤◌, length};
ghost use Rattle.elf.specs.Fields.{half, word};

/// The 16-bit number at an offset.
pub(crate) fn half(bytes: &[u8], offset: usize) -> u16
    requires { offset + 2 ≤ length bytes.now }
    ensures { result ≡ half bytes.now offset }
{
    u16::from_le_bytes([bytes[offset], bytes[offset + 1]])
}

/// The 32-bit number at an offset.
pub(crate) fn word(bytes: &[u8], offset: usize) -> u32
    requires { offset + 4 ≤ length bytes.now }
    ensures { result ≡ word bytes.now offset }
{
    u32::from_le_bytes([
        bytes[offset],
        bytes[offset + 1],
        bytes[offset + 2],
        bytes[offset + 3],
    ])
}
