//! Images on the machines.
use crate::account::Account;
use crate::runner::{Runner, look, run};
use memory::{Flat, is_within};
use pipeline::machine::load;
use predictor::gshare::Gshare;
use predictor::never::Never;
use sequential::machine::Machine;
use std::alloc::{AllocError, Global};
use std::fmt::Write;
use vectors::image::{Image, Line, hexadecimal, line_of};
use wait_states::WaitStates;
use write_buffer::WriteBuffer;

/// A flat memory of an image.
fn flat(image: &Image) -> Result<Flat, AllocError> {
    Ok(Flat::new(image.memory.clone()?))
}

/// The account of the sequential machine.
fn sequential(heap: Global, image: &Image) -> Result<Account, AllocError> {
    let mut machine = Machine::new(image.start, flat(image)?, flat(image)?);
    let mut account = Account::new(heap);
    run(&mut machine, &mut account)?;
    look(&machine, image.memory.as_slice(), &mut account)?;
    Ok(account)
}

/// Adds the account of a pipeline, where it is not that of the sequential machine. One that reached the limit has only to have
/// begun as that did.
fn compare<R: Runner + Drop>(
    heap: Global,
    mut machine: R,
    image: &Image,
    which: &str,
    expected: &str,
    text: &mut String,
) -> Result<(), AllocError> {
    let mut account = Account::new(heap);
    run(&mut machine, &mut account)?;
    if machine.stop().is_none() && expected.starts_with(account.text()) {
        return writeln!(text, "{which}: limit reached");
    }
    look(&machine, image.memory.as_slice(), &mut account)?;
    if account.text() != expected {
        writeln!(text, "{which}:")?;
        text.push_str(account.text())?;
    }
    Ok(())
}

/// What the machines make of an image: the account of the sequential machine, and those of the pipelines that differ from it.
pub fn replay(heap: Global, image: &Image) -> Result<String, AllocError> {
    let mut text = format!(in heap; "image {}\n", image.name)?;
    let account = sequential(heap, image)?;
    text.push_str(account.text())?;

    let plain = load(0, image.start, Never, flat(image)?, flat(image)?);
    compare(
        heap,
        plain,
        image,
        "pipeline, never, flat",
        account.text(),
        &mut text,
    )?;

    let instructions = WaitStates::new(flat(image)?, 1);
    let data = WriteBuffer::new(WaitStates::new(flat(image)?, 2));
    let layered = load(0, image.start, Gshare::new(), instructions, data);
    compare(
        heap,
        layered,
        image,
        "pipeline, gshare, write buffer",
        account.text(),
        &mut text,
    )?;
    Ok(text)
}

/// Whether a memory can have this size, and a program start there.
fn fits(start: u32, size: u32) -> bool {
    Flat::check(size as usize).is_ok() && is_within(size, start)
}

/// Puts words in a row into an image, as far as they are numbers; none where one is not.
fn put_words(image: &mut Image, address: u32, words: &str) -> Option<()> {
    let mut address = address;
    // a counter, since addresses wrap, which no range does
    for word in words.split_whitespace() {
        image.put(address, hexadecimal(word)?);
        address = address.wrapping_add(4);
    }
    Some(())
}

/// The text for all images that a text has.
pub fn replay_all(heap: Global, text: &str) -> Result<String, AllocError> {
    let mut output = String::new(heap);
    let mut image = Image::new(heap, "none", 0, 16)?;
    for line in text.lines() {
        match line_of(line) {
            Some(Line::Image(name, start, size)) => {
                if fits(start, size) {
                    image = Image::new(heap, name, start, size)?;
                } else {
                    writeln!(output, "no image: {line}")?;
                }
            }
            Some(Line::Words(address, words)) => {
                if put_words(&mut image, address, words).is_none() {
                    writeln!(output, "no words: {line}")?;
                }
            }
            Some(Line::Run) => {
                let account = replay(heap, &image)?;
                output.push_str(account.as_str())?;
            }
            None => writeln!(output, "no line: {line}")?,
        }
    }
    Ok(output)
}
