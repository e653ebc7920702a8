//! The smallest use of the library: loads a program of four words, makes clocks until the machine stops, and prints what came of it.
#![tactic(auto)]

use clocking::state::ClockRecord;
use image::bytes_of;
use memory::Flat;
use pipeline::journal::Journal;
use pipeline::machine::{RetiredAt, load};
use predictor::never::Never;

/// addi x1,x0,2; bne x1,x0,8; an illegal word, which the branch jumps over; ecall.
const PROGRAM: [u32; 4] = [0x0020_0093, 0x0000_9463, 0x0000_0000, 0x0000_0073];

fn main(rt: HostRuntime) -> anyhow::Result<()> {
    let instructions = Flat::new(bytes_of(rt.alloc(), &PROGRAM)?);
    let data = Flat::new(vec![in rt.alloc(); 0u8; 4096]?);
    let mut machine = load(1, 0, Never, instructions, data);

    let mut retired_slots = [RetiredAt::EMPTY; 16];
    let mut clock_slots = [ClockRecord::EMPTY; 16];
    let mut journal = Journal::new(&mut retired_slots, &mut clock_slots);
    let run = machine.run(16, &mut journal);

    let counts = machine.counts();
    println!(rt;
        "made {} clocks: {} fetched, {} retired, {} dropped",
        run.made, counts.fetched, counts.retired, counts.dropped
    )?;
    for record in journal.retirements.records() {
        println!(rt;
            "clock {}: {:x} retired",
            record.clock, record.retired.address
        )?;
    }
    if let Some(stop) = machine.stopped() {
        println!(rt;
            "stopped at {:x} with cause {}",
            stop.address,
            stop.cause.number()
        )?;
    }
    Ok(())
}
