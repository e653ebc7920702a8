//! Words and their lines of assembly.
use rv32i_text::AssemblyText;
use rv32i_words::decoding::decode;
use std::alloc::{AllocError, Global};
use std::fmt;
use vectors::image::hexadecimal;

/// A word's line: the word as it was given, and its instruction or `illegal`.
#[derive(Clone, Copy)]
struct LineText<'a>(&'a str);

impl fmt::Display for LineText<'_> {
    fn fmt<W: fmt::Write>(&self, f: &mut fmt::Formatter<W>) -> fmt::Result {
        let text = self.0;
        let Some(word) = hexadecimal(text) else {
            return write!(f, "{text} no word");
        };
        match decode(word) {
            Some(instruction) => write!(f, "{text} {}", AssemblyText(instruction)),
            None => write!(f, "{text} illegal"),
        }
    }
}

/// The lines of all words that a text has.
pub fn disassemble_all(heap: Global, text: &str) -> Result<String, AllocError> {
    let mut output = String::new(heap);
    for word in text.split_whitespace() {
        writeln!(output, "{}", LineText(word))?;
    }
    Ok(output)
}
