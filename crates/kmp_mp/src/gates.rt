//! A call whose gate counts.
use crate::tool::answer;
use core_threads::Gate;
use kmp_base::{MemorySink, MemorySource};
use kmp_call::Status;
use std::sync::atomic::{AtomicU64, Ordering};
use std::test::Fail;

/// Counts how often it is called.
#[derive(Drop)]
struct Counter {
    calls: AtomicU64,
}

impl Gate for Counter {
    fn at(&self, _core: u32, _cycle: u32) {
        self.calls.fetch_add(1, Ordering::SeqCst);
    }
}

/// Each of three cores over flat memory has the four cycles of its `halt`, which passes four stages.
#[test]
fn the_gate_of_a_call_is_called(rt: HostRuntime) -> Result<(), Fail> {
    let alloc = rt.alloc();
    let words = Ok(["run", "--cores=3", "--machine=pipe"].to_vec(alloc)?);
    let mut source = MemorySource::new(b"halt".to_vec(alloc)?, 4, Vec::new(alloc));
    let sink = MemorySink::new(alloc, 4096, Vec::new(alloc))?;
    let gate = Counter {
        calls: AtomicU64::new(0),
    };
    let (ending, sink) = answer(&rt, alloc, &words, &mut source, sink, &gate);
    assert!(rt; matches!(ending.status, Status::Done) && sink.faults == 0);
    assert!(rt; gate.calls.load(Ordering::SeqCst) == 12);
    Ok(())
}
