//! Stacks of memories, call by call, against counts that were worked out by hand.
use Step::{Idle, Misses, Reads, Told, Writes};
use base::bus::{Lanes, Request};
use base::refusal::Refusal;
use memory::{Answer, Flat, Memory, Repeated, Unserved, ask, insist};
use std::alloc::{AllocError, Global};
use std::process::Abort;
use std::test::Fail;
use wait_states::WaitStates;
use write_buffer::WriteBuffer;

#[derive(Clone, Copy)]
enum Step {
    // A read of the first, repeated, gives the second after so many waits.
    Reads(u32, u32, u32),
    // A write to the first of the second, repeated, is done after so many waits.
    Writes(u32, u32, u32),
    // A read is told Wait, once.
    Told(u32),
    // A read is outside.
    Misses(u32),
    Idle,
}

fn try_steps<M: Memory>(rt: &impl Abort, memory: &mut M, steps: &[Step]) {
    for step in steps {
        match *step {
            Reads(address, word, waits) => {
                let reply = Ok(Answer::Word(word));
                assert_eq!(rt;
                    insist(memory, Request::Read { address }),
                    Repeated { reply, waits }
                );
            }
            Writes(address, word, waits) => {
                let reply = Ok(Answer::Done);
                let lanes = Lanes {
                    b0: true,
                    b1: true,
                    b2: true,
                    b3: true,
                };
                assert_eq!(rt;
                    insist(
                        memory,
                        Request::Write {
                            address,
                            word,
                            lanes,
                        },
                    ),
                    Repeated { reply, waits }
                );
            }
            Told(address) => assert_eq!(rt;
                ask(memory, Request::Read { address }),
                Err(Unserved::Wait)
            ),
            Misses(address) => assert_eq!(rt;
                ask(memory, Request::Read { address }),
                Err(Unserved::Outside)
            ),
            Idle => memory.idle(),
        }
    }
}

fn zeros(heap: Global, len: usize) -> Result<Flat, AllocError> {
    Ok(Flat::new(vec![in heap; 0u8; len]?))
}

#[test]
fn flat_sizes(rt: HostRuntime) {
    assert_eq!(rt; Flat::check(16), Ok(()));
    assert_eq!(rt; Flat::check(65536), Ok(()));
    assert_eq!(rt; Flat::check(0), Err(Refusal::FlatSize));
    assert_eq!(rt; Flat::check(8), Err(Refusal::FlatSize));
    assert_eq!(rt; Flat::check(65552), Err(Refusal::FlatSize));
    assert_eq!(rt; Refusal::FlatSize.number(), 1);
}

#[test]
fn longest_waits(rt: HostRuntime) -> Result<(), Fail> {
    let flat = zeros(rt.alloc(), 16)?;
    assert_eq!(rt; WaitStates::check(&flat, 15), Ok(()));
    assert_eq!(rt; WaitStates::check(&flat, 16), Err(Refusal::LongWait));
    assert_eq!(rt; Refusal::LongWait.number(), 2);
    // 5 * 2 + 4
    let one = WriteBuffer::new(WaitStates::new(flat, 2));
    assert_eq!(rt; one.longest(), 14);
    // 5 * 14 + 4 = 74, 5 * 74 + 4 = 374, 5 * 374 + 4 = 1874, and 5 * 1874 + 4 = 9374 is too long
    let four = WriteBuffer::new(WriteBuffer::new(WriteBuffer::new(one)));
    assert_eq!(rt; four.longest(), 1874);
    assert_eq!(rt; WriteBuffer::check(&four), Err(Refusal::LongWait));
    Ok(())
}

// A bad memory has no bytes and never waits, under a good layer too.
#[test]
fn bad_memories(rt: HostRuntime) -> Result<(), Fail> {
    let mut short = zeros(rt.alloc(), 8)?;
    assert_eq!(rt; short.size(), 0);
    assert_eq!(rt; short.peek(0), None);
    try_steps(&rt, &mut short, &[Misses(0)]);
    let mut slow = WriteBuffer::new(WaitStates::new(zeros(rt.alloc(), 16)?, 16));
    assert_eq!(rt; slow.size(), 0);
    assert_eq!(rt; slow.longest(), 4);
    try_steps(&rt, &mut slow, &[Misses(0)]);
    Ok(())
}

#[test]
fn flat_lanes(rt: HostRuntime) -> Result<(), Fail> {
    let mut flat = zeros(rt.alloc(), 32)?;
    try_steps(
        &rt,
        &mut flat,
        &[Writes(28, 0x0403_0201, 0), Misses(30), Misses(32)],
    );
    let odd = Lanes {
        b0: false,
        b1: true,
        b2: false,
        b3: true,
    };
    assert_eq!(rt; flat.write(28, 0x0d0c_0b0a, odd), Ok(()));
    assert_eq!(rt; flat.peek(29), Some(0x0b));
    try_steps(&rt, &mut flat, &[Reads(28, 0x0d03_0b01, 0)]);
    Ok(())
}

// Three wait states over two: a request waits 3 + 2 times. An idle clock, a read of another word and an address outside each start the count again.
#[test]
fn wait_states_over_wait_states(rt: HostRuntime) -> Result<(), Fail> {
    let mut memory = WaitStates::new(WaitStates::new(zeros(rt.alloc(), 16)?, 2), 3);
    assert_eq!(rt; memory.longest(), 5);
    try_steps(
        &rt,
        &mut memory,
        &[
            Writes(4, 7, 5),
            Reads(4, 7, 5),
            Told(4),
            Told(4),
            Idle,
            Reads(4, 7, 5),
        ],
    );
    try_steps(
        &rt,
        &mut memory,
        &[
            Told(4),
            Told(4),
            Told(8),
            Reads(4, 7, 5),
            Told(4),
            Misses(2),
            Reads(4, 7, 5),
        ],
    );
    Ok(())
}

// A buffer over two wait states: a held write is answered below in its third call.
#[test]
fn buffer_over_wait_states(rt: HostRuntime) -> Result<(), Fail> {
    let mut memory = WriteBuffer::new(WaitStates::new(zeros(rt.alloc(), 32)?, 2));
    // a write is taken at once; the read behind it waits for its three calls, and then in two wait states
    try_steps(&rt, &mut memory, &[Writes(0, 0x0403_0201, 0)]);
    assert_eq!(rt; memory.peek(1), Some(2));
    try_steps(&rt, &mut memory, &[Reads(0, 0x0403_0201, 5)]);
    // four are taken at once, and the fifth waits for the first's three calls
    try_steps(
        &rt,
        &mut memory,
        &[
            Writes(4, 4, 0),
            Writes(8, 8, 0),
            Writes(4, 5, 0),
            Writes(12, 12, 0),
            Writes(8, 9, 3),
        ],
    );
    // four times three calls and two wait states, the longest wait; then nothing is held, and two wait states are left
    try_steps(&rt, &mut memory, &[Reads(4, 5, 14), Reads(8, 9, 2)]);
    // three idle clocks send a held write below
    try_steps(
        &rt,
        &mut memory,
        &[Writes(16, 1, 0), Idle, Idle, Idle, Reads(16, 1, 2)],
    );
    Ok(())
}

// One wait state over a buffer over two wait states. The buffer takes a write in its second call. In the wait state of a read the buffer idles, and the held write makes the first of its three calls below; then the read waits for the other two, and in two wait states.
#[test]
fn wait_states_over_buffer(rt: HostRuntime) -> Result<(), Fail> {
    let lower = WriteBuffer::new(WaitStates::new(zeros(rt.alloc(), 16)?, 2));
    let mut memory = WaitStates::new(lower, 1);
    assert_eq!(rt; memory.longest(), 15);
    try_steps(
        &rt,
        &mut memory,
        &[Writes(0, 3, 1), Reads(0, 3, 5), Reads(0, 3, 3)],
    );
    Ok(())
}

// A buffer over a buffer: the lower one takes a held write of the upper in one call, and sends it to the flat memory in one call. So a read behind two writes waits four times.
#[test]
fn buffer_over_buffer(rt: HostRuntime) -> Result<(), Fail> {
    let mut memory = WriteBuffer::new(WriteBuffer::new(zeros(rt.alloc(), 16)?));
    assert_eq!(rt; memory.longest(), 24);
    try_steps(
        &rt,
        &mut memory,
        &[
            Writes(0, 3, 0),
            Writes(4, 4, 0),
            Reads(4, 4, 4),
            Reads(0, 3, 0),
        ],
    );
    Ok(())
}
