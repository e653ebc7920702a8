//! Whole prints of small programs, worked out by hand from the clock rule.
use clocking::state::ClockRecord;
use clocktable::table::clock_table;
use image::{bytes_of, data_memory, padded};
use memory::{Flat, Memory};
use pipeline::journal::Journal;
use pipeline::machine::{Machine, RetiredAt, load};
use predictor::Predictor;
use predictor::backward::Backward;
use predictor::never::Never;
use std::alloc::{AllocError, Global};
use std::fmt::Write;
use std::process::Abort;
use std::test::Fail;
use wait_states::WaitStates;
use write_buffer::WriteBuffer;

/// What a run of at most 1000 clocks prints.
fn print_of<P: Predictor + Drop, I: Memory + Drop, D: Memory + Drop>(
    heap: Global,
    mut machine: Machine<P, I, D>,
) -> Result<String, Fail> {
    let mut retired_slots = [RetiredAt::EMPTY; 1000];
    let mut clock_slots = [ClockRecord::EMPTY; 1000];
    let mut journal = Journal::new(&mut retired_slots, &mut clock_slots);
    machine.run(1000, &mut journal);
    Ok(clock_table(
        heap,
        journal.retirements.records(),
        journal.clocks.records(),
        machine.stopped(),
        machine.counts(),
    )?)
}

/// A flat memory of these words, padded.
fn image_of(heap: Global, words: &[u32]) -> Result<Flat, Fail> {
    Ok(padded(bytes_of(heap, words)?)?.into_memory())
}

/// The lines of what retired, those of the clocks and the last one are the print of this machine.
fn prints<P: Predictor + Drop, I: Memory + Drop, D: Memory + Drop>(
    rt: &impl Abort,
    heap: Global,
    machine: Machine<P, I, D>,
    retired: &str,
    clocks: &str,
    end: &str,
) -> Result<(), Fail> {
    let text = print_of(heap, machine)?;
    let expected = format!(in heap;
        "retired clock address word rd value\n{retired}clock IF ID EX MEM WB note\n{clocks}{end}\n"
    )?;
    assert_eq!(rt; text.as_str(), expected.as_str());
    Ok(())
}

/// The same for a program of these words on flat memories, with the predictor that never takes a branch.
fn prints_plain(
    rt: &impl Abort,
    heap: Global,
    words: &[u32],
    retired: &str,
    clocks: &str,
    end: &str,
) -> Result<(), Fail> {
    let machine = load(0, 0, Never, image_of(heap, words)?, data_memory(heap)?);
    prints(rt, heap, machine, retired, clocks, end)
}

/// Counting down from 2 in a loop, to an `ebreak`.
const LOOP: [u32; 4] = [0x0020_0093, 0xfff0_8093, 0xfe00_9ee3, 0x0010_0073];

/// The branch back is guessed wrongly the first time, and rightly when it falls through.
#[test]
fn a_loop_never_guessed(rt: HostRuntime) -> Result<(), Fail> {
    prints_plain(
        &rt,
        rt.alloc(),
        &LOOP,
        "1 5 0 200093 1 2\n2 6 4 fff08093 1 1\n3 7 8 fe009ee3 - 0\n4 10 4 fff08093 1 0\n5 11 8 fe009ee3 - 0\n",
        "1 0 - - - - -\n2 4 0 - - - -\n3 8 4 0 - - -\n4 c 8 4 0 - -\n5 10 c 8 4 0 r\n6 4 - - 8 4 -\n7 8 4 - - 8 -\n8 c 8 4 - - -\n9 10 c 8 4 - -\n10 14 10 c 8 4 -\n11 18 14 10 c 8 r\n12 18 - - - c s\n",
        "stop 3 c fetched 9 retired 5 dropped 3",
    )
}

/// The branch back is guessed rightly the first time, and wrongly when it falls through.
#[test]
fn a_loop_guessed_backward(rt: HostRuntime) -> Result<(), Fail> {
    let heap = rt.alloc();
    let machine = load(0, 0, Backward, image_of(heap, &LOOP)?, data_memory(heap)?);
    prints(
        &rt,
        heap,
        machine,
        "1 5 0 200093 1 2\n2 6 4 fff08093 1 1\n3 7 8 fe009ee3 - 0\n4 8 4 fff08093 1 0\n5 9 8 fe009ee3 - 0\n",
        "1 0 - - - - -\n2 4 0 - - - -\n3 8 4 0 - - -\n4 4 8 4 0 - -\n5 8 4 8 4 0 -\n6 4 8 4 8 4 -\n7 8 4 8 4 8 r\n8 c - - 8 4 -\n9 10 c - - 8 -\n10 14 10 c - - -\n11 18 14 10 c - r\n12 18 - - - c s\n",
        "stop 3 c fetched 9 retired 5 dropped 3",
    )
}

/// `add` wants what `lw` before it loads, which is there one clock later.
#[test]
fn a_load_hazard(rt: HostRuntime) -> Result<(), Fail> {
    prints_plain(
        &rt,
        rt.alloc(),
        &[0x0000_2083, 0x0010_8133, 0x0000_0073],
        "1 5 0 2083 1 0\n2 7 4 108133 2 0\n",
        "1 0 - - - - -\n2 4 0 - - - -\n3 8 4 0 - - h\n4 8 4 - 0 - -\n5 c 8 4 - 0 -\n6 10 c 8 4 - -\n7 14 10 c 8 4 r\n8 14 - - - 8 s\n",
        "stop 11 8 fetched 5 retired 2 dropped 2",
    )
}

/// A `lw` that is not aligned is found in data, behind one that retires and before two that are dropped.
#[test]
fn a_rollback_from_data(rt: HostRuntime) -> Result<(), Fail> {
    prints_plain(
        &rt,
        rt.alloc(),
        &[0x0010_0293, 0x0010_2083, 0x0050_0113, 0x0060_0193],
        "1 5 0 100293 5 1\n",
        "1 0 - - - - -\n2 4 0 - - - -\n3 8 4 0 - - -\n4 c 8 4 0 - -\n5 10 c 8 4 0 r\n6 10 - - - 4 s\n",
        "stop 4 4 fetched 4 retired 1 dropped 2",
    )
}

/// A data memory that says Wait once holds up the three instructions behind the `lw`.
#[test]
fn a_data_wait(rt: HostRuntime) -> Result<(), Fail> {
    let heap = rt.alloc();
    let words = [0x0000_2083, 0x0050_0113, 0x0060_0193, 0x0000_0073];
    let data = WaitStates::new(data_memory(heap)?, 1);
    prints(
        &rt,
        heap,
        load(0, 0, Never, image_of(heap, &words)?, data),
        "1 6 0 2083 1 0\n2 7 4 500113 2 5\n3 8 8 600193 3 6\n",
        "1 0 - - - - -\n2 4 0 - - - -\n3 8 4 0 - - -\n4 c 8 4 0 - d\n5 c 8 4 0 - -\n6 10 c 8 4 0 -\n7 14 10 c 8 4 -\n8 18 14 10 c 8 r\n9 18 - - - c s\n",
        "stop 11 c fetched 6 retired 3 dropped 2",
    )
}

/// An instruction memory that says Wait once to each word.
#[test]
fn a_fetch_wait(rt: HostRuntime) -> Result<(), Fail> {
    let heap = rt.alloc();
    let image = WaitStates::new(image_of(heap, &[0x0020_0093, 0x0000_0073])?, 1);
    prints(
        &rt,
        heap,
        load(0, 0, Never, image, data_memory(heap)?),
        "1 6 0 200093 1 2\n",
        "1 0 - - - - f\n2 0 - - - - -\n3 4 0 - - - f\n4 4 - 0 - - -\n5 8 4 - 0 - f\n6 8 - 4 - 0 -\n7 c 8 - 4 - r\n8 c - - - 4 s\n",
        "stop 11 4 fetched 3 retired 1 dropped 1",
    )
}

// Which notes can stand in one clock: `hd` and `fd`, and no others. In the clock of `s` no other step is taken. After `r` what
// was in D is dropped and nothing is fetched, and a data memory that is asked and says Wait keeps execute from rolling back.
// With `h` D stays, so nothing is fetched.

/// `add` wants what `lw` before it loads, while that is in execute (`h`) and while the data memory says Wait to it (`hd`). It
/// takes 0 of the load, and not the 5 of the older `addi`.
#[test]
fn a_hazard_in_a_data_wait(rt: HostRuntime) -> Result<(), Fail> {
    let heap = rt.alloc();
    let words = [0x0050_0093, 0x0000_2083, 0x0010_8133, 0x0000_0073];
    let data = WaitStates::new(data_memory(heap)?, 1);
    prints(
        &rt,
        heap,
        load(0, 0, Never, image_of(heap, &words)?, data),
        "1 5 0 500093 1 5\n2 7 4 2083 1 0\n3 9 8 108133 2 0\n",
        "1 0 - - - - -\n2 4 0 - - - -\n3 8 4 0 - - -\n4 c 8 4 0 - h\n5 c 8 - 4 0 hd\n6 c 8 - 4 - -\n7 10 c 8 - 4 -\n8 14 10 c 8 - -\n9 18 14 10 c 8 r\n10 18 - - - c s\n",
        "stop 11 c fetched 6 retired 3 dropped 2",
    )
}

/// `sw` is taken by a write buffer at once. The `lw` after it is told Wait three times: while the write gets its one Wait below
/// and is done there, and then by its own Wait; `add` waits for the 5 of it as long.
#[test]
fn a_hazard_behind_a_write_buffer(rt: HostRuntime) -> Result<(), Fail> {
    let heap = rt.alloc();
    let words = [
        0x0050_0093,
        0x0010_2023,
        0x0000_2103,
        0x0011_01b3,
        0x0000_0073,
    ];
    let data = WriteBuffer::new(WaitStates::new(data_memory(heap)?, 1));
    prints(
        &rt,
        heap,
        load(0, 0, Never, image_of(heap, &words)?, data),
        "1 5 0 500093 1 5\n2 6 4 102023 - 0\n3 10 8 2103 2 5\n4 12 c 1101b3 3 a\n",
        "1 0 - - - - -\n2 4 0 - - - -\n3 8 4 0 - - -\n4 c 8 4 0 - -\n5 10 c 8 4 0 h\n6 10 c - 8 4 hd\n7 10 c - 8 - hd\n8 10 c - 8 - hd\n9 10 c - 8 - -\n10 14 10 c - 8 -\n11 18 14 10 c - -\n12 1c 18 14 10 c r\n13 1c - - - 10 s\n",
        "stop 11 10 fetched 7 retired 4 dropped 2",
    )
}

/// Both memories say Wait in clock 5 (`fd`). In clock 6 the `lw` still waits and `ecall` stays behind it, but D is empty, so 8 is
/// fetched.
#[test]
fn both_memories_wait(rt: HostRuntime) -> Result<(), Fail> {
    let heap = rt.alloc();
    let image = WaitStates::new(image_of(heap, &[0x0000_2083, 0x0000_0073])?, 1);
    let data = WaitStates::new(data_memory(heap)?, 2);
    prints(
        &rt,
        heap,
        load(0, 0, Never, image, data),
        "1 8 0 2083 1 0\n",
        "1 0 - - - - f\n2 0 - - - - -\n3 4 0 - - - f\n4 4 - 0 - - -\n5 8 4 - 0 - fd\n6 8 - 4 0 - d\n7 c 8 4 0 - f\n8 c - 8 4 0 r\n9 c - - - 4 s\n",
        "stop 11 4 fetched 3 retired 1 dropped 1",
    )
}

/// Each word comes after three Waits, so in both rollbacks, of the `jalr` to 8 in execute and of the `ecall` in data, nothing
/// stands behind and none is dropped.
#[test]
fn rollbacks_that_drop_nothing(rt: HostRuntime) -> Result<(), Fail> {
    let heap = rt.alloc();
    let image = WaitStates::new(image_of(heap, &[0x0080_00e7, 0x0000_0000, 0x0000_0073])?, 3);
    prints(
        &rt,
        heap,
        load(0, 0, Never, image, data_memory(heap)?),
        "1 8 0 8000e7 1 4\n",
        "1 0 - - - - f\n2 0 - - - - f\n3 0 - - - - f\n4 0 - - - - -\n5 4 0 - - - f\n6 4 - 0 - - r\n7 8 - - 0 - f\n8 8 - - - 0 f\n9 8 - - - - f\n10 8 - - - - -\n11 c 8 - - - f\n12 c - 8 - - f\n13 c - - 8 - r\n14 c - - - 8 s\n",
        "stop 11 8 fetched 2 retired 1 dropped 0",
    )
}

/// After a `jalr` fetching goes on at the next address. `jalr x1,5(x0)` goes to 4, since the lowest bit is cleared, and that is
/// the next: no rollback. `jalr x2,8(x1)`, with the 4 in x1, goes to c, so 8 is dropped.
#[test]
fn jumps_to_the_next_address_and_past_it(rt: HostRuntime) -> Result<(), Fail> {
    prints_plain(
        &rt,
        rt.alloc(),
        &[0x0050_00e7, 0x0080_8167, 0x0060_0193, 0x0000_0073],
        "1 5 0 5000e7 1 4\n2 6 4 808167 2 8\n",
        "1 0 - - - - -\n2 4 0 - - - -\n3 8 4 0 - - -\n4 c 8 4 0 - r\n5 c - - 4 0 -\n6 10 c - - 4 -\n7 14 10 c - - -\n8 18 14 10 c - r\n9 18 - - - c s\n",
        "stop 11 c fetched 6 retired 2 dropped 3",
    )
}

/// A program that stops at its first instruction, by a cause that is found in decode or in data.
fn stops_at_once(rt: &impl Abort, heap: Global, word: u32, end: &str) -> Result<(), Fail> {
    prints_plain(
        rt,
        heap,
        &[word],
        "",
        "1 0 - - - - -\n2 4 0 - - - -\n3 8 4 0 - - -\n4 c 8 4 0 - r\n5 c - - - 0 s\n",
        end,
    )
}

/// An illegal word, `ebreak` and `ecall`; `lw x1,1(x0)`, `lw x1,-2048(x0)`, `sw x0,1(x0)` and `sw x0,-2048(x0)`.
#[test]
fn causes_in_decode_and_data(rt: HostRuntime) -> Result<(), Fail> {
    let heap = rt.alloc();
    stops_at_once(
        &rt,
        heap,
        0x0000_0000,
        "stop 2 0 fetched 3 retired 0 dropped 2",
    )?;
    stops_at_once(
        &rt,
        heap,
        0x0010_0073,
        "stop 3 0 fetched 3 retired 0 dropped 2",
    )?;
    stops_at_once(
        &rt,
        heap,
        0x0000_0073,
        "stop 11 0 fetched 3 retired 0 dropped 2",
    )?;
    stops_at_once(
        &rt,
        heap,
        0x0010_2083,
        "stop 4 0 fetched 3 retired 0 dropped 2",
    )?;
    stops_at_once(
        &rt,
        heap,
        0x8000_2083,
        "stop 5 0 fetched 3 retired 0 dropped 2",
    )?;
    stops_at_once(
        &rt,
        heap,
        0x0000_20a3,
        "stop 6 0 fetched 3 retired 0 dropped 2",
    )?;
    stops_at_once(
        &rt,
        heap,
        0x8000_2023,
        "stop 7 0 fetched 3 retired 0 dropped 2",
    )
}

/// `jal x0,2`: fetching goes on at 2 and 6, which are no multiples of 4 either.
#[test]
fn a_jump_to_no_multiple_of_4(rt: HostRuntime) -> Result<(), Fail> {
    prints_plain(
        &rt,
        rt.alloc(),
        &[0x0020_006f],
        "",
        "1 0 - - - - -\n2 2 0 - - - -\n3 6 2 0 - - -\n4 a 6 2 0 - r\n5 a - - - 0 s\n",
        "stop 0 0 fetched 3 retired 0 dropped 2",
    )
}

/// Four `addi x0,x0,0`, and then an address outside.
#[test]
fn past_the_end(rt: HostRuntime) -> Result<(), Fail> {
    prints_plain(
        &rt,
        rt.alloc(),
        &[0x0000_0013, 0x0000_0013, 0x0000_0013, 0x0000_0013],
        "1 5 0 13 - 0\n2 6 4 13 - 0\n3 7 8 13 - 0\n4 8 c 13 - 0\n",
        "1 0 - - - - -\n2 4 0 - - - -\n3 8 4 0 - - -\n4 c 8 4 0 - -\n5 10 c 8 4 0 -\n6 14 10 c 8 4 -\n7 18 14 10 c 8 -\n8 1c 18 14 10 c r\n9 1c - - - 10 s\n",
        "stop 1 10 fetched 7 retired 4 dropped 2",
    )
}

/// `jal x0,0` is guessed rightly for ever: one retires in each clock from the fifth.
#[test]
fn the_limit(rt: HostRuntime) -> Result<(), Fail> {
    let heap = rt.alloc();
    let mut retired = String::new(heap);
    let mut clocks = String::new(heap);
    write!(
        clocks,
        "1 0 - - - - -\n2 0 0 - - - -\n3 0 0 0 - - -\n4 0 0 0 0 - -\n"
    )?;
    for clock in 5u32..=1000 {
        let number = clock.wrapping_sub(4);
        writeln!(retired, "{number} {clock} 0 6f - 0")?;
        writeln!(clocks, "{clock} 0 0 0 0 0 -")?;
    }
    prints_plain(
        &rt,
        heap,
        &[0x0000_006f],
        retired.as_str(),
        clocks.as_str(),
        "limit fetched 1000 retired 996 dropped 0",
    )
}
