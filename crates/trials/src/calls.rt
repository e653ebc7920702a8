//! The calls on a machine, accepted and refused.
use base::refusal::Refusal;
use clocking::state::ClockRecord;
use image::bytes_of;
use memory::Flat;
use pipeline::journal::Journal;
use pipeline::machine::{RetiredAt, check, load};
use pipeline::pause::pause;
use predictor::never::Never;
use std::test::Fail;

/// Serials to 65535, and starts that are multiples of 4 inside 16 bytes.
#[test]
fn what_can_be_loaded(rt: HostRuntime) -> Result<(), Fail> {
    let image = Flat::new(vec![in rt.alloc(); 0u8; 16]?);
    assert_eq!(rt; check(65535, 12, &image), Ok(()));
    assert_eq!(rt; check(65536, 0, &image), Err(Refusal::BadStart));
    assert_eq!(rt; check(0, 16, &image), Err(Refusal::BadStart));
    assert_eq!(rt; check(0, 2, &image), Err(Refusal::BadStart));
    Ok(())
}

/// A bad serial or start counts as 0.
#[test]
fn loaded_without_the_check(rt: HostRuntime) -> Result<(), Fail> {
    let heap = rt.alloc();
    let image = Flat::new(vec![in heap; 0u8; 16]?);
    let data = Flat::new(vec![in heap; 0u8; 16]?);
    let machine = load(65536, 16, Never, image, data);
    assert_eq!(rt; machine.serial(), 0);
    assert_eq!(rt; machine.fetch_address(), 0);
    Ok(())
}

/// `addi x1,x0,2` and `ecall`, with a pause after the first clock: how a run ends, what is refused then, and what is read.
#[test]
fn a_run_to_the_stop(rt: HostRuntime) -> Result<(), Fail> {
    let heap = rt.alloc();
    let image = Flat::new(bytes_of(heap, &[0x0020_0093, 0x0000_0073, 0, 0])?);
    let data = Flat::new(vec![in heap; 0u8; 16]?);
    let mut machine = load(7, 0, Never, image, data);
    let mut retired_slots = [RetiredAt::EMPTY; 8];
    let mut clock_slots = [ClockRecord::EMPTY; 8];
    let mut journal = Journal::new(&mut retired_slots, &mut clock_slots);
    assert_eq!(rt; machine.clock(&mut journal), Ok(()));
    assert_eq!(rt; pause(&mut machine), Ok(()));
    let run = machine.run(100, &mut journal);
    assert_eq!(rt; run.made, 5);
    assert_eq!(rt; run.why, Some(Refusal::Stopped));
    assert_eq!(rt; machine.clock(&mut journal), Err(Refusal::Stopped));
    assert_eq!(rt; machine.register(1), Ok(2));
    assert_eq!(rt; machine.register(32), Err(Refusal::NotThere));
    assert_eq!(rt; machine.byte(15), Ok(0));
    assert_eq!(rt; machine.byte(16), Err(Refusal::NotThere));
    assert_eq!(rt; machine.counts().clocks, 6);
    assert_eq!(rt; journal.retirements.len(), 1);
    assert_eq!(rt; journal.clocks.len(), 6);
    Ok(())
}

/// Two slots for clocks: the third clock is refused, also where none is asked for.
#[test]
fn a_full_log(rt: HostRuntime) -> Result<(), Fail> {
    let heap = rt.alloc();
    let image = Flat::new(vec![in heap; 0u8; 16]?);
    let data = Flat::new(vec![in heap; 0u8; 16]?);
    let mut machine = load(0, 0, Never, image, data);
    let mut retired_slots = [RetiredAt::EMPTY; 8];
    let mut clock_slots = [ClockRecord::EMPTY; 2];
    let mut journal = Journal::new(&mut retired_slots, &mut clock_slots);
    let run = machine.run(3, &mut journal);
    assert_eq!(rt; run.made, 2);
    assert_eq!(rt; run.why, Some(Refusal::LogFull));
    assert_eq!(rt; machine.run(0, &mut journal).why, Some(Refusal::LogFull));
    Ok(())
}
