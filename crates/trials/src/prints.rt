//! Whole prints of small programs, worked out by hand.
use base::failure::Failure;
use base::log::Log;
use image::{bytes_of, padded};
use memory::Flat;
use seqtable::program::sequence_of;
use seqtable::table::sequence_text;
use sequential::machine::Machine;
use sequential::record::Retired;
use std::alloc::Global;
use std::fmt::Write;
use std::process::Abort;
use std::test::Fail;
use wait_states::WaitStates;

/// The lines after the first that are printed of these words.
fn prints(rt: &impl Abort, heap: Global, words: &[u32], lines: &str) -> Result<(), Fail> {
    let text = sequence_of(heap, bytes_of(heap, words)?)?;
    let expected = format!(in heap; "retired address word rd value\n{lines}")?;
    assert_eq!(rt; text.as_str(), expected.as_str());
    Ok(())
}

/// Counting down from 2 in a loop, to an `ebreak`.
#[test]
fn a_loop(rt: HostRuntime) -> Result<(), Fail> {
    prints(
        &rt,
        rt.alloc(),
        &[0x0020_0093, 0xfff0_8093, 0xfe00_9ee3, 0x0010_0073],
        "1 0 200093 1 2\n2 4 fff08093 1 1\n3 8 fe009ee3 - 0\n4 4 fff08093 1 0\n5 8 fe009ee3 - 0\nstop 3 c retired 5\n",
    )
}

/// `jal x0,0` retires for ever.
#[test]
fn the_limit(rt: HostRuntime) -> Result<(), Fail> {
    let heap = rt.alloc();
    let mut lines = String::new(heap);
    for number in 1..=1000 {
        writeln!(lines, "{number} 0 6f - 0")?;
    }
    write!(lines, "limit retired 1000\n")?;
    prints(&rt, heap, &[0x0000_006f], lines.as_str())
}

/// Each cause, and what is just not one: a jump to a half word by `jal`, `beq` and `jalr`, a branch there that is not
/// taken, and `jalr` with an odd sum; an address behind the image and one far outside; an illegal word; `ebreak`;
/// `ecall`.
#[test]
fn causes_of_the_instruction(rt: HostRuntime) -> Result<(), Fail> {
    let heap = rt.alloc();
    prints(&rt, heap, &[0x0020_006f], "stop 0 0 retired 0\n")?;
    prints(&rt, heap, &[0x0000_0363], "stop 0 0 retired 0\n")?;
    prints(
        &rt,
        heap,
        &[0x0020_0093, 0x0000_8067],
        "1 0 200093 1 2\nstop 0 4 retired 1\n",
    )?;
    prints(
        &rt,
        heap,
        &[0x0000_1363, 0x00d0_0093, 0x0000_82e7, 0x0000_0073],
        "1 0 1363 - 0\n2 4 d00093 1 d\n3 8 82e7 5 c\nstop 11 c retired 3\n",
    )?;
    prints(
        &rt,
        heap,
        &[0x0000_0013, 0x0000_0013, 0x0000_0013, 0x0000_0013],
        "1 0 13 - 0\n2 4 13 - 0\n3 8 13 - 0\n4 c 13 - 0\nstop 1 10 retired 4\n",
    )?;
    prints(
        &rt,
        heap,
        &[0xffdf_f06f],
        "1 0 ffdff06f - 0\nstop 1 fffffffc retired 1\n",
    )?;
    prints(&rt, heap, &[0x0000_100f], "stop 2 0 retired 0\n")?;
    prints(&rt, heap, &[0x0010_0073], "stop 3 0 retired 0\n")?;
    prints(&rt, heap, &[0x0000_0073], "stop 11 0 retired 0\n")
}

/// A word at 2 and a half at 1 are misaligned. With 4096 bytes of data, the word at ffc is the last, the one at 1000 is
/// outside, and the one at 1002 is misaligned before it is outside; so for stores, of which a byte at fff is done.
#[test]
fn causes_of_the_data(rt: HostRuntime) -> Result<(), Fail> {
    let heap = rt.alloc();
    prints(&rt, heap, &[0x0020_2083], "stop 4 0 retired 0\n")?;
    prints(&rt, heap, &[0x0010_1083], "stop 4 0 retired 0\n")?;
    prints(
        &rt,
        heap,
        &[0x0000_10b7, 0xffc0_a103, 0x0000_a103],
        "1 0 10b7 1 1000\n2 4 ffc0a103 2 0\nstop 5 8 retired 2\n",
    )?;
    prints(
        &rt,
        heap,
        &[0x0000_10b7, 0x0020_a103],
        "1 0 10b7 1 1000\nstop 4 4 retired 1\n",
    )?;
    prints(&rt, heap, &[0x0000_2123], "stop 6 0 retired 0\n")?;
    prints(&rt, heap, &[0x0000_10a3], "stop 6 0 retired 0\n")?;
    prints(
        &rt,
        heap,
        &[0x0000_10b7, 0xfe10_8fa3, 0x0000_a023],
        "1 0 10b7 1 1000\n2 4 fe108fa3 - 0\nstop 7 8 retired 2\n",
    )?;
    prints(
        &rt,
        heap,
        &[0x0000_10b7, 0x0000_a1a3],
        "1 0 10b7 1 1000\nstop 6 4 retired 1\n",
    )
}

/// The word 80818283 at 4, read whole and in parts, with and without its sign. Then its lowest byte at 9 and its lower
/// half at 10, so that the word at 8 is 82838300.
#[test]
fn parts_of_words(rt: HostRuntime) -> Result<(), Fail> {
    prints(
        &rt,
        rt.alloc(),
        &[
            0x8081_80b7,
            0x2830_8093,
            0x0010_2223,
            0x0040_0103,
            0x0070_0103,
            0x0050_4183,
            0x0040_1203,
            0x0060_5283,
            0x0040_2303,
            0x0010_04a3,
            0x0010_1523,
            0x0080_2383,
        ],
        "1 0 808180b7 1 80818000\n2 4 28308093 1 80818283\n3 8 102223 - 0\n4 c 400103 2 ffffff83\n5 10 700103 2 ffffff80\n6 14 504183 3 82\n7 18 401203 4 ffff8283\n8 1c 605283 5 8081\n9 20 402303 6 80818283\n10 24 1004a3 - 0\n11 28 101523 - 0\n12 2c 802383 7 82838300\nstop 1 30 retired 12\n",
    )
}

/// `addi x0,x0,5`, `jal x0,8`, `lw x0,0(x0)`: none is recorded as a write, and x0 added to itself is 0. An `auipc` and a
/// `jal` give addresses.
#[test]
fn x0_is_never_written(rt: HostRuntime) -> Result<(), Fail> {
    prints(
        &rt,
        rt.alloc(),
        &[
            0x0050_0013,
            0x0080_006f,
            0x0000_0000,
            0x0000_2003,
            0x0000_00b3,
            0x0000_1097,
            0x0080_00ef,
        ],
        "1 0 500013 - 0\n2 4 80006f - 0\n3 c 2003 - 0\n4 10 b3 1 0\n5 14 1097 1 1014\n6 18 8000ef 1 1c\nstop 1 20 retired 6\n",
    )
}

/// Memories that wait make the same records as those that do not; here there is room for two, and the third retires
/// into another log.
#[test]
fn waiting_changes_nothing(rt: HostRuntime) -> Result<(), Fail> {
    let heap = rt.alloc();
    let words = [0x0070_0093, 0x0010_2223, 0x0040_2103, 0x0000_0073];
    let image = WaitStates::new(Flat::new(bytes_of(heap, &words)?), 2);
    let data = WaitStates::new(Flat::new(vec![in heap; 0u8; 16]?), 15);
    let mut machine = Machine::new(0, image, data);
    let mut two = [Retired::EMPTY; 2];
    let mut log = Log::new(&mut two);
    assert!(rt; machine.run(&mut log).is_none());
    let text = sequence_text(heap, log.records(), None)?;
    assert_eq!(rt;
        text.as_str(),
        "retired address word rd value\n1 0 700093 1 7\n2 4 102223 - 0\nlimit retired 2\n"
    );
    let mut more = [Retired::EMPTY; 2];
    let mut log = Log::new(&mut more);
    let stop = machine.run(&mut log);
    let text = sequence_text(heap, log.records(), stop)?;
    assert_eq!(rt;
        text.as_str(),
        "retired address word rd value\n1 8 402103 2 7\nstop 11 c retired 1\n"
    );
    Ok(())
}

/// An image of no bytes is sixteen zeros, and so stops at once; 65536 bytes are the most.
#[test]
fn sizes_of_images(rt: HostRuntime) -> Result<(), Fail> {
    let heap = rt.alloc();
    prints(&rt, heap, &[], "stop 2 0 retired 0\n")?;
    for (given, size) in [
        (0, 16),
        (1, 16),
        (16, 16),
        (17, 32),
        (65521, 65536),
        (65536, 65536),
    ] {
        let image = padded(vec![in heap; 1u8; given]?)?;
        assert_eq!(rt; image.bytes().len(), size);
        assert_eq!(rt; image.bytes().get(given).copied().unwrap_or(0), 0);
    }
    match sequence_of(heap, vec![in heap; 1u8; 65537]?) {
        Err(Failure::Refused(why)) => {
            assert_eq!(rt; why.number(), 1);
            Ok(())
        },
        _ => Err(Fail::new("too large, and not refused")),
    }
}
