//! A sink that collects, over sinks that fail in turn and that grow full.
ghost use Rattle.std.specs.Prelude.{◌<◌};

use kmp_base::{Collected, MemorySink, NoMemory, put};
use std::alloc::Global;
use std::test::Fail;

/// Puts six bytes in three pieces over a sink that collects, until a piece fails, and finishes: what is beneath then, and
/// whether all of them were put.
fn put_pieces(alloc: Global, room: usize, sink: MemorySink) -> Result<(MemorySink, bool), NoMemory>
    requires { 0 < room }
{
    let mut collected = match Collected::new(alloc, room, sink) {
        Ok(collected) => collected,
        Err(_) => return Err(NoMemory),
    };
    let is_put = put(&mut collected, b"ab").is_ok()
        && put(&mut collected, b"cde").is_ok()
        && put(&mut collected, b"f").is_ok();
    let (sink, finished) = collected.finish();
    Ok((sink, is_put && finished.is_ok()))
}

// Whichever write fails, a front was put. What waited is put at the end, where it is that write that failed.
#[test]
fn each_write_fails_in_turn(rt: HostRuntime) -> Result<(), Fail> {
    for room in 1..8usize {
        for call in 0..8usize {
            let failing = [call as u32].to_vec(rt.alloc())?;
            let sink = MemorySink::new(rt.alloc(), 6, failing)?;
            let (sink, is_put) = put_pieces(rt.alloc(), room, sink)?;
            let writes = 6usize.div_ceil(room);
            assert!(rt; is_put == (writes <= call));
            assert!(rt; b"abcdef".starts_with(&sink.held));
            let held = match call {
                _ if is_put => 6,
                _ if call + 1 == writes => call * room,
                _ => (call + 1) * room,
            };
            assert_eq!(rt; sink.held.len(), held);
        }
    }
    Ok(())
}

#[test]
fn a_full_sink_holds_a_front(rt: HostRuntime) -> Result<(), Fail> {
    for room in 1..8usize {
        for most in 0..7usize {
            let sink = MemorySink::new(rt.alloc(), most, Vec::new(rt.alloc()))?;
            let (sink, is_put) = put_pieces(rt.alloc(), room, sink)?;
            assert!(rt; is_put == (most == 6));
            assert!(rt; sink.held.as_slice() == &b"abcdef"[..most]);
        }
    }
    Ok(())
}
