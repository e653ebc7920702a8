//! Images as the vectors have them.
ghost use Rattle.std.specs.Prelude.{◌≡◌, replicate, IfOk, MatchOption, string_bytes, slice_set};
ghost use Rattle.vectors.specs.Images.{with_word_at, Hexadecimal};
ghost use Rattle.vectors.specs.Lines.{Says, SaysHead, SaysNothing, SaysNoHead};

use std::alloc::{AllocError, Global};

/// A memory with a program and its data in it. It is both the instruction memory and the data memory of a machine.
#[derive(Drop)]
pub struct Image {
    pub name: String,
    pub start: u32,
    pub memory: Vec<u8>,
}

impl Image {
    /// Zeros.
    pub fn new(heap: Global, name: &str, start: u32, size: u32) -> Result<Image, AllocError>
        ensures { IfOk result (λ i. (string_bytes i.name ≡ name.now) × (i.start ≡ start)
            × (i.memory.items ≡ replicate size 0)) }
    {
        Ok(Image {
            name: String::from_str(heap, name)?,
            start,
            memory: vec![in heap; 0u8; size as usize]?,
        })
    }

    /// Puts a byte at an address, if that lies within.
    fn put_byte(&mut self, address: u32, byte: u8)
        ensures memory { self.new.memory.items ≡ slice_set self.old.memory.items address byte }
        ensures same { (self.new.name ≡ self.old.name) × (self.new.start ≡ self.old.start) }
    {
        if let Some(place) = self.memory.get_mut(address as usize) {
            *place = byte;
        }
    }

    /// Puts a word at an address, its lowest byte first.
    pub fn put(&mut self, address: u32, word: u32)
        ensures memory { self.new.memory.items ≡ with_word_at self.old.memory.items address word }
        ensures same { (self.new.name ≡ self.old.name) × (self.new.start ≡ self.old.start) }
    {
        for (i, byte) in word.to_le_bytes().iter().enumerate() {
            self.put_byte(address.wrapping_add(i as u32), *byte);
        }
    }
}

/// What a line of the vectors says.
#[derive(Clone, Copy, PartialEq, Eq, Debug)]
pub enum Line<'a> {
    /// `image NAME START SIZE`: a memory of so many zeros, and where its program starts.
    Image(&'a str, u32, u32),
    /// `ADDRESS WORD WORD ..`: words that stand in a row, from this address on.
    Words(u32, &'a str),
    /// `run`: all of the memory is there.
    Run,
}

/// A number in hexadecimal digits.
pub fn hexadecimal(text: &str) -> Option<u32>
    ensures { Hexadecimal text.now result }
{
    u32::from_str_radix(text, 16).ok()
}

/// `NAME START SIZE`, the numbers in hexadecimal; none for any other text.
fn header(rest: &str) -> Option<Line>
    ensures { MatchOption result (SaysNoHead rest.now) (SaysHead rest.now) }
{
    let (name, rest) = rest.split_once(' ')?;
    let (start, size) = rest.split_once(' ')?;
    Some(Line::Image(name, hexadecimal(start)?, hexadecimal(size)?))
}

/// What a line says; none for a text that is no line of the vectors.
pub fn line_of(text: &str) -> Option<Line>
    ensures { MatchOption result (SaysNothing text.now) (Says text.now) }
{
    if text == "run" {
        return Some(Line::Run);
    }
    let (first, rest) = text.split_once(' ')?;
    if first == "image" {
        return header(rest);
    }
    Some(Line::Words(hexadecimal(first)?, rest))
}
