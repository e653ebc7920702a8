//! Images that are given by their words, and the data beside them.
use crate::{bytes_of, data_memory, padded};
use memory::Memory;
use std::test::Fail;

#[test]
fn words_lie_lowest_byte_first(rt: HostRuntime) -> Result<(), Fail> {
    let bytes = bytes_of(rt.alloc(), &[0x0403_0201, 0xfff8_f7f6])?;
    assert!(rt; bytes.as_slice() == [1, 2, 3, 4, 0xf6, 0xf7, 0xf8, 0xff].as_slice());
    let image = padded(bytes)?;
    assert_eq!(rt; image.bytes().len(), 16);
    assert_eq!(rt; image.bytes().get(7), Some(&0xff));
    assert_eq!(rt; image.bytes().get(8), Some(&0));
    assert_eq!(rt; image.into_bytes().len(), 16);
    Ok(())
}

#[test]
fn data_is_4096_zeros(rt: HostRuntime) -> Result<(), Fail> {
    let data = data_memory(rt.alloc())?;
    assert_eq!(rt; data.size(), 4096);
    assert_eq!(rt; data.peek(0), Some(0));
    assert_eq!(rt; data.peek(4095), Some(0));
    Ok(())
}
