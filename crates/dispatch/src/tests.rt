//! A layer over a flat memory, on the heap.
use crate::boxed::Boxed;
use crate::layer::{Layer, over};
use base::bus::Request;
use memory::{Answer, Flat, Memory, Repeated, insist};
use setup::choice::LayerChoice;
use std::alloc::{AllocError, Global};
use std::test::Fail;

/// Two wait states over 16 bytes, of which those at 4 and 7 are not 0.
fn boxed_layer(heap: Global) -> Result<Boxed<Layer<Flat>>, AllocError> {
    let mut bytes = vec![in heap; 0u8; 16]?;
    bytes[4] = 0x11;
    bytes[7] = 0x44;
    Ok(Boxed::new(heap, over(Flat::new(bytes), LayerChoice::WaitStates(2)))?)
}

#[test]
fn a_boxed_memory_is_read(rt: HostRuntime) -> Result<(), Fail> {
    let mut memory = boxed_layer(rt.alloc())?;
    assert_eq!(rt; memory.size(), 16);
    assert_eq!(rt; memory.longest(), 2);
    assert_eq!(rt; memory.peek(7), Some(0x44));
    let reply = Ok(Answer::Word(0x4400_0011));
    assert_eq!(rt;
        insist(&mut memory, Request::Read { address: 4 }),
        Repeated { reply, waits: 2 }
    );
    Ok(())
}
