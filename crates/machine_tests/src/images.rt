//! Images into a sink whose writes fail in turn.
use image_file::{read_image, write_image};
use kmp_base::MemorySink;
use std::test::Fail;

// The spelling of `halt`. Its six numbers are six puts.
const HALT: [u8; 24] = [
    0x4b, 0x4d, 0x50, 0x31, 0x00, 0x20, 0x00, 0x00, 0x02, 0x00, 0x00, 0x00, 0x00, 0x00, 0x00, 0x00,
    0x0d, 0x00, 0x00, 0x00, 0x00, 0x00, 0x00, 0x00,
];

#[test]
fn a_write_that_fails_leaves_a_front(rt: HostRuntime) -> Result<(), Fail> {
    let image = read_image(rt.alloc(), &HALT)?;
    for call in 0..7u32 {
        let mut sink = MemorySink::new(rt.alloc(), 24, [call].to_vec(rt.alloc())?)?;
        assert!(rt; write_image(&image, &mut sink).is_ok() == (call == 6));
        assert!(rt; sink.held.as_slice() == &HALT[..4 * call as usize]);
    }
    Ok(())
}
