//! What a sequential machine can be asked, and logs.
use base::branch::Outcome;
use base::log::Log;
use base::refusal::Refusal;
use image::bytes_of;
use memory::Flat;
use rv32i::cause::Cause;
use rv32i::register::Register;
use sequential::machine::Machine;
use sequential::record::Stop;
use std::test::Fail;

/// `bne x0,x0,8` and `beq x0,x0,-4` back to it: what becomes of a branch goes with its retirement.
#[test]
fn branches_have_outcomes(rt: HostRuntime) -> Result<(), Fail> {
    let heap = rt.alloc();
    let image = bytes_of(heap, &[0x0000_1463, 0xfe00_0ee3, 0x0000_0013, 0x0000_0013])?;
    let mut machine = Machine::new(0, Flat::new(image), Flat::new(vec![in heap; 0u8; 16]?));
    let first = machine.step()?;
    assert_eq!(rt;
        first.outcome,
        Some(Outcome {
            address: 0,
            target: 8,
            taken: false,
        })
    );
    let second = machine.step()?;
    assert_eq!(rt;
        second.outcome,
        Some(Outcome {
            address: 4,
            target: 0,
            taken: true,
        })
    );
    assert_eq!(rt; machine.address(), 0);
    Ok(())
}

/// `addi x1,x0,-1`, `sb x1,3(x0)`, `ecall`: the readings on the way and after the stop, which stays.
#[test]
fn readings_and_the_stop(rt: HostRuntime) -> Result<(), Fail> {
    let heap = rt.alloc();
    let image = bytes_of(heap, &[0xfff0_0093, 0x0010_01a3, 0x0000_0073, 0x0000_0013])?;
    let mut machine = Machine::new(0, Flat::new(image), Flat::new(vec![in heap; 0u8; 16]?));
    assert_eq!(rt; machine.register(1), Ok(0));
    machine.step()?;
    machine.step()?;
    assert_eq!(rt; machine.register(1), Ok(0xffff_ffff));
    assert_eq!(rt; machine.register(0), Ok(0));
    assert_eq!(rt; machine.register(32), Err(Refusal::NotThere));
    assert_eq!(rt; machine.byte(3), Ok(0xff));
    assert_eq!(rt; machine.byte(2), Ok(0));
    assert_eq!(rt; machine.byte(16), Err(Refusal::NotThere));
    assert_eq!(rt; machine.stopped(), None);
    let stop = Stop {
        address: 8,
        cause: Cause::EnvironmentCall,
    };
    for _ in 0..2 {
        assert_eq!(rt; machine.step(), Err(stop));
        assert_eq!(rt; machine.address(), 8);
        assert_eq!(rt; machine.stopped(), Some(stop));
    }
    Ok(())
}

/// Two slots: the third record is refused with 6 and changes nothing, and a place that is not filled with 9.
#[test]
fn logs_refuse(rt: HostRuntime) -> Result<(), Fail> {
    let mut slots = [0u32; 2];
    let mut log = Log::new(&mut slots);
    assert_eq!(rt; log.get(0), Err(Refusal::NotThere));
    assert_eq!(rt; log.push(7), Ok(()));
    assert_eq!(rt; log.get(1), Err(Refusal::NotThere));
    assert!(rt; !log.is_full());
    assert_eq!(rt; log.push(8), Ok(()));
    assert!(rt; log.is_full());
    assert_eq!(rt; log.push(9), Err(Refusal::LogFull));
    assert_eq!(rt; log.len(), 2);
    assert_eq!(rt; log.get(0), Ok(7));
    assert_eq!(rt; log.get(1), Ok(8));
    assert_eq!(rt; Refusal::LogFull.number(), 6);
    assert_eq!(rt; Refusal::NotThere.number(), 9);
    assert_eq!(rt; Register::new(31)?.number(), 31);
    assert!(rt; Register::new(32).is_err());
    Ok(())
}
