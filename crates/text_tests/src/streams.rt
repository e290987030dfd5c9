//! Streams in memory that fail in turn, and real streams that fail once.
ghost use Rattle.std.specs.Prelude.{◌≡◌, IfOk};

use kmp_base::{InputFault, MemorySink, MemorySource, StdSink, StdSource, put, read_input};
use std::io;
use std::io::ErrorKind;
use std::test::Fail;

// Three calls give a byte each, the fourth finds the end, and there is no fifth.
#[test]
fn each_read_fails_in_turn(rt: HostRuntime) -> Result<(), Fail> {
    for call in 0..5u32 {
        let bytes = b"abc".to_vec(rt.alloc())?;
        let mut source = MemorySource::new(bytes, 1, [call].to_vec(rt.alloc())?);
        let fault = read_input(rt.alloc(), &mut source, 3).err();
        assert!(rt; fault == (call < 4).then_some(InputFault::Failed));
        assert!(rt; source.at == call.min(3) as usize);
        assert!(rt; source.faults == u64::from(call < 4));
    }
    Ok(())
}

// The second write fails, and at the third there is room for one byte more.
#[test]
fn a_sink_holds_a_front(rt: HostRuntime) -> Result<(), Fail> {
    let mut sink = MemorySink::new(rt.alloc(), 3, [1].to_vec(rt.alloc())?)?;
    assert!(rt; put(&mut sink, b"ab").is_ok());
    assert!(rt; put(&mut sink, b"cd").is_err());
    assert!(rt; put(&mut sink, b"cd").is_err());
    assert!(rt; sink.held.as_slice() == b"abc".as_slice());
    assert!(rt; sink.faults == 2);
    Ok(())
}

// A stream that fails at the call of this number. It has nothing to read, and takes all that is written.
#[derive(Drop)]
struct Interrupted {
    call: u32,
}

impl Interrupted {
    fn answer(&mut self, count: usize) -> io::Result<usize>
        ensures bound { IfOk result (λ n. n ≡ count) }
    {
        let call = self.call;
        self.call = call.wrapping_sub(1);
        if call == 0 {
            return Err(ErrorKind::Interrupted.into());
        }
        Ok(count)
    }
}

impl io::Read for Interrupted {
    fn read(&mut self, _buf: &mut [u8]) -> io::Result<usize> {
        self.answer(0)
    }
}

impl io::Write for Interrupted {
    fn write(&mut self, buf: &[u8]) -> io::Result<usize> {
        self.answer(buf.len())
    }

    fn flush(&mut self) -> io::Result<()> {
        self.answer(0)?;
        Ok(())
    }
}

#[test]
fn an_interrupted_read_is_a_fault(rt: HostRuntime) {
    let mut source = StdSource::new(Interrupted { call: 0 });
    let fault = read_input(rt.alloc(), &mut source, 3).err();
    assert!(rt; fault == Some(InputFault::Failed));
    assert!(rt; source.faults == 1);
    let mut source = StdSource::new(Interrupted { call: 1 });
    assert!(rt; read_input(rt.alloc(), &mut source, 3).is_ok());
}

// Each piece is a write and a flush. The writer takes a single byte, and fails at the flush behind the second one.
#[test]
fn an_interrupted_write_or_flush_is_a_fault(rt: HostRuntime) {
    let mut sink = StdSink::new(Interrupted { call: 0 });
    assert!(rt; put(&mut sink, b"abc").is_err());
    let mut sink = StdSink::new(Interrupted { call: 3 });
    assert!(rt; put(&mut sink, b"a").is_ok());
    assert!(rt; put(&mut sink, b"bc").is_err());
    assert!(rt; sink.faults == 1);
}
