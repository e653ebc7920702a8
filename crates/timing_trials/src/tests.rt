//! Prints of a loop that stores, loads and counts down, held to prints of another model, and what is refused.
use base::failure::Failure;
use image::bytes_of;
use longrun::run::Unwatched;
use report::timing::timing_of;
use setup::choice::{LayerChoice, PredictorChoice, Setup, SimpleChoice, StackChoice};
use std::alloc::Global;
use std::process::Abort;
use std::test::Fail;

/// addi x1,x0,5; sw x1,0(x0); lw x2,0(x0); addi x1,x1,-1; bne x1,x0,-12; ecall
const LOOP: [u32; 6] = [
    0x0050_0093,
    0x0010_2023,
    0x0000_2103,
    0xfff0_8093,
    0xfe00_9ae3,
    0x0000_0073,
];

/// Wait states over a flat memory.
fn waits(states: u32) -> StackChoice {
    StackChoice {
        top: Some(LayerChoice::WaitStates(states)),
        ..StackChoice::FLAT
    }
}

/// The set-up prints this of the loop.
fn prints(rt: &impl Abort, heap: Global, setup: Setup, print: &str) -> Result<(), Fail> {
    let text = timing_of(heap, &setup, bytes_of(heap, &LOOP)?, &mut Unwatched)?;
    assert_eq!(rt; text.as_str(), print);
    Ok(())
}

/// The set-up gets this refusal, for an image of so many zero bytes.
fn refuses(
    rt: &impl Abort,
    heap: Global,
    setup: Setup,
    bytes: usize,
    number: u32,
) -> Result<(), Fail> {
    let image = vec![in heap; 0u8; bytes]?;
    match timing_of(heap, &setup, image, &mut Unwatched) {
        Ok(_) => Err(Fail::new("it is not refused")),
        Err(Failure::Refused(why)) => {
            assert_eq!(rt; why.number(), number);
            Ok(())
        },
        Err(failure) => Err(failure.into()),
    }
}

#[test]
fn flat_memories_and_never(rt: HostRuntime) -> Result<(), Fail> {
    prints(
        &rt,
        rt.alloc(),
        Setup::DEFAULT,
        "predictor never\ninstructions flat longest 0\ndata flat longest 0\nfirst retirement within 5 clocks, each next within 3\nclocks 34 fetched 28 retired 21 dropped 6 in flight 0\nlongest gap 5\nstop 11 14\n",
    )
}

#[test]
fn a_tournament_over_waiting_memories(rt: HostRuntime) -> Result<(), Fail> {
    let setup = Setup {
        predictor: PredictorChoice::Tournament(SimpleChoice::Bimodal, SimpleChoice::Gshare),
        instructions: waits(1),
        data_memory: StackChoice {
            top: Some(LayerChoice::WriteBuffer),
            middle: Some(LayerChoice::WaitStates(2)),
            ..StackChoice::FLAT
        },
        clocks: 200,
        ..Setup::DEFAULT
    };
    prints(
        &rt,
        rt.alloc(),
        setup,
        "predictor tournament:bimodal,gshare\ninstructions wait:1/flat longest 1\ndata buffer/wait:2/flat longest 14\nfirst retirement within 20 clocks, each next within 18\nclocks 62 fetched 23 retired 21 dropped 1 in flight 0\nlongest gap 6\nstop 11 14\n",
    )
}

#[test]
fn nothing_retires_in_three_clocks(rt: HostRuntime) -> Result<(), Fail> {
    let setup = Setup {
        predictor: PredictorChoice::Simple(SimpleChoice::Backward),
        data_memory: StackChoice {
            top: Some(LayerChoice::WaitStates(15)),
            middle: Some(LayerChoice::WriteBuffer),
            bottom: Some(LayerChoice::WaitStates(3)),
        },
        clocks: 3,
        ..Setup::DEFAULT
    };
    prints(
        &rt,
        rt.alloc(),
        setup,
        "predictor backward\ninstructions flat longest 0\ndata wait:15/buffer/wait:3/flat longest 34\nfirst retirement within 39 clocks, each next within 37\nclocks 3 fetched 3 retired 0 dropped 0 in flight 3\nlongest gap 0\nlimit\n",
    )
}

#[test]
fn three_buffers_and_few_bytes(rt: HostRuntime) -> Result<(), Fail> {
    let setup = Setup {
        predictor: PredictorChoice::Simple(SimpleChoice::Bimodal),
        instructions: StackChoice {
            top: Some(LayerChoice::WriteBuffer),
            middle: Some(LayerChoice::WriteBuffer),
            bottom: Some(LayerChoice::WriteBuffer),
        },
        data_size: 16,
        clocks: 40,
        ..Setup::DEFAULT
    };
    prints(
        &rt,
        rt.alloc(),
        setup,
        "predictor bimodal\ninstructions buffer/buffer/buffer/flat longest 124\ndata flat longest 0\nfirst retirement within 129 clocks, each next within 127\nclocks 30 fetched 26 retired 21 dropped 4 in flight 0\nlongest gap 5\nstop 11 14\n",
    )
}

#[test]
fn the_tables_first(rt: HostRuntime) -> Result<(), Fail> {
    let setup = Setup {
        predictor: PredictorChoice::Simple(SimpleChoice::Gshare),
        data_memory: waits(2),
        clocks: 12,
        log: true,
        ..Setup::DEFAULT
    };
    prints(
        &rt,
        rt.alloc(),
        setup,
        "retired clock address word rd value\n1 5 0 500093 1 5\n2 8 4 102023 - 0\n3 11 8 2103 2 5\n4 12 c fff08093 1 4\nclock IF ID EX MEM WB note\n1 0 - - - - -\n2 4 0 - - - -\n3 8 4 0 - - -\n4 c 8 4 0 - -\n5 10 c 8 4 0 d\n6 10 c 8 4 - d\n7 10 c 8 4 - -\n8 14 10 c 8 4 d\n9 14 10 c 8 - d\n10 14 10 c 8 - -\n11 18 14 10 c 8 r\n12 4 - - 10 c -\npredictor gshare\ninstructions flat longest 0\ndata wait:2/flat longest 2\nfirst retirement within 7 clocks, each next within 5\nclocks 12 fetched 7 retired 4 dropped 1 in flight 2\nlongest gap 5\nlimit\n",
    )
}

#[test]
fn what_is_refused(rt: HostRuntime) -> Result<(), Fail> {
    let heap = rt.alloc();
    refuses(&rt, heap, Setup::DEFAULT, 65537, 1)?;
    refuses(
        &rt,
        heap,
        Setup {
            data_size: 8,
            ..Setup::DEFAULT
        },
        16,
        1,
    )?;
    refuses(
        &rt,
        heap,
        Setup {
            data_memory: waits(16),
            ..Setup::DEFAULT
        },
        16,
        2,
    )?;
    refuses(
        &rt,
        heap,
        Setup {
            instructions: waits(16),
            data_size: 8,
            ..Setup::DEFAULT
        },
        16,
        2,
    )?;
    refuses(
        &rt,
        heap,
        Setup {
            start: 2,
            ..Setup::DEFAULT
        },
        16,
        3,
    )?;
    refuses(
        &rt,
        heap,
        Setup {
            start: 16,
            ..Setup::DEFAULT
        },
        16,
        3,
    )
}
