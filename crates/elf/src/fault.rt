//! What a file can be that is not read.
ghost use Rattle.std.specs.Prelude.{◌≡◌, Some};
ghost use Rattle.elf.specs.Texts.{number, fault_text};

use std::error::Error;
use std::fmt;

/// Why a file is refused: the first of these that holds of it.
#[derive(Clone, Copy, PartialEq, Eq, Debug)]
pub enum Fault {
    /// Its first bytes are not those of an ELF file.
    NotElf = 1,
    /// It is shorter than the header.
    TruncatedHeader = 2,
    /// It is of 64 bits.
    Not32Bit = 3,
    /// It is big-endian.
    NotLittleEndian = 4,
    /// Its version is not 1.
    NotVersion1 = 5,
    /// It is for another machine.
    NotRiscV = 6,
    /// It is relocatable, shared or of another type.
    NotExecutable = 7,
    /// A program header is not of 32 bytes.
    HeaderSize = 8,
    /// The program headers do not end within the file.
    HeadersOutside = 9,
    /// A segment's bytes do not end within the file.
    SegmentOutside = 10,
    /// A segment has more bytes in the file than in memory.
    FileAboveMemory = 11,
    /// A segment ends beyond 65536 in memory, by its physical address.
    BeyondPhysical = 12,
    /// A segment ends beyond 65536 in memory, by its virtual address.
    BeyondVirtual = 13,
    /// Bytes of two segments have one physical address.
    Overlapping = 14,
    /// No segment has bytes in the file.
    NothingToLoad = 15,
}

impl Fault {
    /// The number of the fault.
    pub fn number(self) -> u32
        ensures { result ≡ number self }
    {
        self as u32
    }
}

impl fmt::Display for Fault {
    ghost output = { λ fault. Some (fault_text fault) };

    fn fmt<W: fmt::Write>(&self, f: &mut fmt::Formatter<W>) -> fmt::Result {
        f.write_str(match self {
            Fault::NotElf => "the file is not an ELF file",
            Fault::TruncatedHeader => "the ELF file ends within its header",
            Fault::Not32Bit => "the ELF file is not of 32 bits",
            Fault::NotLittleEndian => "the ELF file is not little-endian",
            Fault::NotVersion1 => "the ELF file is not of version 1",
            Fault::NotRiscV => "the ELF file is not for RISC-V",
            Fault::NotExecutable => {
                "the ELF file is not an executable, but relocatable, shared or of another type"
            }
            Fault::HeaderSize => "the ELF file has program headers of another size than 32 bytes",
            Fault::HeadersOutside => "the ELF file has program headers that lie outside of it",
            Fault::SegmentOutside => "the ELF file has a segment whose bytes lie outside of it",
            Fault::FileAboveMemory => {
                "the ELF file has a segment of more bytes in the file than in memory"
            }
            Fault::BeyondPhysical => {
                "the ELF file has a segment that ends beyond 65536 by its physical address"
            }
            Fault::BeyondVirtual => {
                "the ELF file has a segment that ends beyond 65536 by its virtual address"
            }
            Fault::Overlapping => {
                "the ELF file has segments that overlap by their physical addresses"
            }
            Fault::NothingToLoad => "the ELF file has no segment with bytes to load",
        })
    }
}

impl Error for Fault {}
