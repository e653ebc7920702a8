//! The segments of a table of program headers.
ghost use Rattle.std.specs.Iterator.{YieldsFirst, item_count};
ghost use Rattle.std.specs.Prelude.{◌≡◌, ◌≤◌, false, None, length, IfOk};
ghost use Rattle.std.specs.List.{list_any};
ghost use Rattle.std.specs.Result.{result_err};
ghost use Rattle.elf.specs.Tables.{segments_left};
ghost use Rattle.elf.specs.Segments.{overlap};
ghost use Rattle.elf.specs.Images.{first_fault, any_overlap, image_size, memory_size};
ghost use Rattle.elf.specs.Images.{segments_fault, Puts, IsImage};

use crate::fault::Fault;
use crate::segment::{PROGRAM_HEADER_SIZE, Segment};
use std::alloc::{AllocError, Global};

/// The segments that are loaded, by program headers.
#[derive(Clone, Copy)]
pub(crate) struct Segments<'a> {
    headers: &'a [[u8; PROGRAM_HEADER_SIZE]],
}

impl<'a> Iterator for Segments<'a> {
    type Item = Segment;

    ghost next_gives = { YieldsFirst segments_left };

    ghost remaining = { item_count segments_left };

    fn next(&mut self) -> Option<Segment> {
        while let Some((header, others)) = self.headers.split_first() {
            self.headers = others;
            if let Some(segment) = Segment::from_header(header) {
                return Some(segment);
            }
        }
        None
    }
}

impl<'a> Segments<'a> {
    /// The segments of program headers.
    pub fn new(headers: &'a [[u8; PROGRAM_HEADER_SIZE]]) -> Segments<'a>
        ensures { result.headers.now ≡ headers.now }
    {
        Segments { headers }
    }

    /// Whether one of them overlaps a segment.
    fn overlap_with(mut self, segment: &Segment) -> bool
        ensures { result ≡ list_any (overlap segment.now) (segments_left self.entry) }
    {
        self.any(|other| segment.overlaps(&other))
    }

    /// Whether two of them overlap.
    pub fn overlap(mut self) -> bool
        ensures { result ≡ any_overlap (segments_left self.entry) }
    {
        while let Some(segment) = self.next() {
            if self.overlap_with(&segment) {
                return true;
            }
        }
        false
    }

    /// Where the bytes of all of them in the file end, by the physical addresses.
    pub fn image_size(self) -> usize
        ensures { result ≡ image_size (segments_left self.entry) }
    {
        self.fold(0, |end, segment| end.max(segment.file_end()))
    }

    /// Where the bytes of all of them in memory end, by either address.
    pub fn memory_size(self) -> usize
        ensures { result ≡ memory_size (segments_left self.entry) }
    {
        self.fold(0, |end, segment| end.max(segment.memory_end()))
    }

    /// Refuses segments of which one has a fault, two overlap or none has bytes, in a file of so many bytes.
    pub fn check(self, size: usize) -> Result<(), Fault>
        ensures { result_err result ≡ segments_fault size (segments_left self.entry) }
    {
        for segment in self {
            segment.check(size)?;
        }
        if self.overlap() {
            return Err(Fault::Overlapping);
        }
        if self.image_size() == 0 {
            return Err(Fault::NothingToLoad);
        }
        Ok(())
    }

    /// Copies the bytes of all of them in a file to where they are loaded.
    fn put(self, file: &[u8], image: &mut [u8])
        requires faultless { first_fault (length file.now) (segments_left self) ≡ None }
        requires apart { any_overlap (segments_left self) ≡ false }
        requires room { image_size (segments_left self) ≤ length image.old }
        ensures { Puts file.now (segments_left self.entry) image.old image.new }
    {
        for segment in self {
            segment.put(file, image);
        }
    }

    /// The bytes of all of them in a file, where they are loaded, and zeros between them.
    pub fn image(self, heap: Global, file: &[u8]) -> Result<Vec<u8>, AllocError>
        requires faultless { first_fault (length file.now) (segments_left self) ≡ None }
        requires apart { any_overlap (segments_left self) ≡ false }
        ensures { IfOk result (λ image. IsImage file.now (segments_left self.entry) image.items) }
    {
        let mut image = vec![in heap; 0u8; self.image_size()]?;
        self.put(file, &mut image);
        Ok(image)
    }
}
