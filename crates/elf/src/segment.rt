//! A segment that is loaded.
ghost use Rattle.std.specs.Prelude.{◌≡◌, ◌≤◌, [], ◌∷◌, None, length};
ghost use Rattle.std.specs.Result.{result_err};
ghost use Rattle.elf.specs.Segments.{loaded_segment, segment_fault, file_end, memory_end, overlap};
ghost use Rattle.elf.specs.Images.{Puts};

use crate::fault::Fault;
use crate::field::word;

/// How long a program header is.
pub(crate) const PROGRAM_HEADER_SIZE: usize = 32;

/// The type of a loadable segment.
const PT_LOAD: u32 = 1;

/// The highest end that a segment may have.
const LIMIT: usize = 65536;

// Where the fields of a program header stand in it.
const P_TYPE: usize = 0;

const P_OFFSET: usize = 4;

const P_VADDR: usize = 8;

const P_PADDR: usize = 12;

const P_FILESZ: usize = 16;

const P_MEMSZ: usize = 20;

/// What a program header says of its segment.
#[derive(Clone, Copy, PartialEq, Eq, Debug)]
pub(crate) struct Segment {
    pub offset: u32,
    pub virtual_address: u32,
    pub physical_address: u32,
    pub file_size: u32,
    pub memory_size: u32,
}

impl Segment {
    /// The segment of a program header; none where it is not loadable or has no bytes at all.
    pub fn from_header(header: &[u8; PROGRAM_HEADER_SIZE]) -> Option<Segment>
        ensures { result ≡ loaded_segment header.now }
    {
        let segment = Segment {
            offset: word(header, P_OFFSET),
            virtual_address: word(header, P_VADDR),
            physical_address: word(header, P_PADDR),
            file_size: word(header, P_FILESZ),
            memory_size: word(header, P_MEMSZ),
        };
        let loads = word(header, P_TYPE) == PT_LOAD
            && !(segment.file_size == 0 && segment.memory_size == 0);
        loads.then_some(segment)
    }

    /// Refuses a segment that has a fault by itself, in a file of so many bytes.
    pub fn check(&self, size: usize) -> Result<(), Fault>
        ensures { result_err result ≡ segment_fault size self.now }
    {
        if self.file_size > 0 && self.offset as usize + self.file_size as usize > size {
            return Err(Fault::SegmentOutside);
        }
        if self.file_size > self.memory_size {
            return Err(Fault::FileAboveMemory);
        }
        let memory_size = self.memory_size as usize;
        if self.physical_address as usize + memory_size > LIMIT {
            return Err(Fault::BeyondPhysical);
        }
        if self.virtual_address as usize + memory_size > LIMIT {
            return Err(Fault::BeyondVirtual);
        }
        Ok(())
    }

    /// Where its bytes in the file end once they are loaded, at its physical address; 0 where it has none.
    pub fn file_end(&self) -> usize
        ensures { result ≡ file_end self.now }
    {
        if self.file_size == 0 {
            0
        } else {
            self.physical_address as usize + self.file_size as usize
        }
    }

    /// Where its bytes in memory end, by either address.
    pub fn memory_end(&self) -> usize
        ensures { result ≡ memory_end self.now }
    {
        let start = self.physical_address.max(self.virtual_address);
        start as usize + self.memory_size as usize
    }

    /// Whether bytes of it and of another are loaded at one address.
    pub fn overlaps(&self, other: &Segment) -> bool
        ensures { result ≡ overlap self.now other.now }
    {
        (self.physical_address as usize) < other.file_end()
            && (other.physical_address as usize) < self.file_end()
    }

    /// Copies its bytes in the file to where they are loaded.
    pub fn put(&self, file: &[u8], image: &mut [u8])
        requires faultless { segment_fault (length file.now) self.now ≡ None }
        requires room { file_end self.now ≤ length image.old }
        ensures { Puts file.now (self.now ∷ []) image.old image.new }
    {
        if self.file_size == 0 {
            return;
        }
        let size = self.file_size as usize;
        let from = self.offset as usize;
        let to = self.physical_address as usize;
        image[to..to + size].copy_from_slice(&file[from..from + size]);
    }
}
