//! The header of a file.
ghost use Rattle.std.specs.Prelude.{◌≡◌, ◌≤◌, length};
ghost use Rattle.std.specs.Result.{result_err};
ghost use Rattle.elf.specs.Fields.{is_elf};
ghost use Rattle.elf.specs.Headers.{kind_fault, e_entry, TableRead};

use crate::fault::Fault;
use crate::field::{half, word};
use crate::segment::PROGRAM_HEADER_SIZE;
use crate::segments::Segments;

/// The first bytes of an ELF file.
const MAGIC: [u8; 4] = *b"\x7fELF";

/// How long the header is.
const HEADER_SIZE: usize = 52;

// Where the fields of the header stand in it.
const EI_CLASS: usize = 4;

const EI_DATA: usize = 5;

const EI_VERSION: usize = 6;

const E_TYPE: usize = 16;

const E_MACHINE: usize = 18;

const E_VERSION: usize = 20;

const E_ENTRY: usize = 24;

const E_PHOFF: usize = 28;

const E_PHENTSIZE: usize = 42;

const E_PHNUM: usize = 44;

/// The class of files of 32 bits.
const ELFCLASS32: u8 = 1;

/// The encoding of little-endian files.
const ELFDATA2LSB: u8 = 1;

/// The version of the format, in both of its fields.
const EV_CURRENT: u8 = 1;

/// The machine RISC-V.
const EM_RISCV: u16 = 243;

/// The type of executables.
const ET_EXEC: u16 = 2;

/// Whether a file is an ELF file, which its first four bytes say.
pub fn is_elf(file: &[u8]) -> bool
    ensures { result ≡ is_elf file.now }
{
    file.starts_with(&MAGIC)
}

/// Refuses a file that is no 32-bit little-endian executable for RISC-V, by what its header says.
pub(crate) fn check_kind(file: &[u8]) -> Result<(), Fault>
    ensures { result_err result ≡ kind_fault file.now }
{
    if !is_elf(file) {
        return Err(Fault::NotElf);
    }
    if file.len() < HEADER_SIZE {
        return Err(Fault::TruncatedHeader);
    }
    if file[EI_CLASS] != ELFCLASS32 {
        return Err(Fault::Not32Bit);
    }
    if file[EI_DATA] != ELFDATA2LSB {
        return Err(Fault::NotLittleEndian);
    }
    if file[EI_VERSION] != EV_CURRENT || word(file, E_VERSION) != u32::from(EV_CURRENT) {
        return Err(Fault::NotVersion1);
    }
    if half(file, E_MACHINE) != EM_RISCV {
        return Err(Fault::NotRiscV);
    }
    if half(file, E_TYPE) != ET_EXEC {
        return Err(Fault::NotExecutable);
    }
    Ok(())
}

/// The address of the first instruction.
pub(crate) fn entry(file: &[u8]) -> u32
    requires { 52 ≤ length file.now }
    ensures { result ≡ e_entry file.now }
{
    word(file, E_ENTRY)
}

/// The segments of a file's program headers. Refused where these do not stand within the file.
#[tactic(auto, using(crate::proofs::Chunks::chunks_in_range))]
pub(crate) fn segments(file: &[u8]) -> Result<Segments<'_>, Fault>
    requires { 52 ≤ length file.now }
    ensures { TableRead file.now result }
{
    let count = usize::from(half(file, E_PHNUM));
    if count > 0 && usize::from(half(file, E_PHENTSIZE)) != PROGRAM_HEADER_SIZE {
        return Err(Fault::HeaderSize);
    }
    let start = word(file, E_PHOFF) as usize;
    let end = start + PROGRAM_HEADER_SIZE * count;
    let table = file.get(start..end).ok_or(Fault::HeadersOutside)?;
    Ok(Segments::new(table.as_chunks().0))
}
