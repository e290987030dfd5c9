//! A source and a sink in memory, which fail at the calls that a list names.
ghost use Rattle.std.specs.Prelude.{◌≡◌, ◌+◌, ◌<◌, ◌≤◌, ◌↔◌, ◌⊎◌, min, List, [], ◌++◌, Some, length, take, drop, Contains, IsTrue, IfOk, vec_len};
ghost use Rattle.std.specs.Vec.{vec_capacity};
ghost use Rattle.kmp_base.specs.Streams.{IfGot, OnReadFailed, IfTook, OnWriteFailed, next_count};

use crate::{NoMemory, Read, Sink, Source, Wrote};
use std::alloc::Global;

/// A source over bytes in memory, which fails at chosen calls.
#[derive(Drop)]
pub struct MemorySource {
    /// All the bytes, those that were given among them.
    pub bytes: Vec<u8>,
    /// How many bytes were given.
    pub at: usize,
    /// The most bytes that one call gives.
    pub piece: usize,
    /// The numbers of the calls that fail. The first call has the number 0.
    pub failing: Vec<u32>,
    /// The number of calls made, which stops at its last value.
    pub calls: u64,
    /// The number of calls that failed, which stops at its last value.
    pub faults: u64,
    ghost piece_above_zero: { 0 < piece },
    ghost at_in_bytes: { at ≤ vec_len bytes },
}

/// A sink in memory with room for so many bytes, which fails at chosen calls and where it is full.
#[derive(Drop)]
pub struct MemorySink {
    /// The bytes that were taken.
    pub held: Vec<u8>,
    /// The most bytes that it holds. Their memory was taken when it was made.
    pub room: usize,
    /// The numbers of the calls that fail. The first call has the number 0.
    pub failing: Vec<u32>,
    /// The number of calls made, which stops at its last value.
    pub calls: u64,
    /// The number of calls that failed, which stops at its last value.
    pub faults: u64,
    ghost within_room: { vec_len held ≤ room },
    ghost reserved: { room ≤ vec_capacity held },
}

impl MemorySource {
    ghost use Rattle.kmp_base.specs.Memory.{bytes_left, KeepsSource};

    /// A source that has all the bytes left.
    pub fn new(bytes: Vec<u8>, piece: usize, failing: Vec<u32>) -> Self
        requires { 0 < piece }
        ensures bytes { result.bytes ≡ bytes }
        ensures at { result.at ≡ 0 }
        ensures piece { result.piece ≡ piece }
        ensures failing { result.failing ≡ failing }
        ensures calls { result.calls ≡ 0 }
        ensures faults { result.faults ≡ 0 }
    {
        MemorySource {
            bytes,
            at: 0,
            piece,
            failing,
            calls: 0,
            faults: 0,
        }
    }

    // Gives the next bytes, and says how many.
    fn give(&mut self, buf: &mut [u8]) -> usize
        ensures count { result ≡ min (min (length buf.old) self.old.piece) (length (bytes_left self.old)) }
        ensures next { bytes_left self.old ≡ take result buf.new ++ bytes_left self.new }
        ensures at { self.new.at ≡ self.old.at + result }
        ensures beyond { drop result buf.new ≡ drop result buf.old }
        ensures len { length buf.new ≡ length buf.old }
        ensures counts { (self.new.calls ≡ self.old.calls) × (self.new.faults ≡ self.old.faults) }
        ensures keeps { KeepsSource self.old self.new }
    {
        let left = self.bytes.len() - self.at;
        let count = buf.len().min(self.piece).min(left);
        buf[..count].copy_from_slice(&self.bytes[self.at..self.at + count]);
        self.at += count;
        count
    }
}

impl MemorySink {
    /// An empty sink with memory for `room` bytes.
    pub fn new(alloc: Global, room: usize, failing: Vec<u32>) -> Result<Self, NoMemory>
        ensures held { IfOk result (λ sink. sink.held.items ≡ []) }
        ensures room { IfOk result (λ sink. sink.room ≡ room) }
        ensures failing { IfOk result (λ sink. sink.failing ≡ failing) }
        ensures calls { IfOk result (λ sink. sink.calls ≡ 0) }
        ensures faults { IfOk result (λ sink. sink.faults ≡ 0) }
    {
        let held = Vec::with_capacity(alloc, room)?;
        Ok(MemorySink {
            held,
            room,
            failing,
            calls: 0,
            faults: 0,
        })
    }
}

// Whether the call of this number is to fail.
fn is_failing(failing: &[u32], call: u64) -> bool
    ensures value { IsTrue result ↔ Contains failing.now call }
{
    failing.iter().any(|number| u64::from(*number) == call)
}

impl Source for MemorySource {
    ghost use Rattle.kmp_base.specs.Memory.{bytes_left, KeepsSource};

    ghost left = { λ source. Some (bytes_left source) };

    ghost faults = { λ source. source.faults };

    fn read(&mut self, buf: &mut [u8]) -> Read
        requires { 0 < length buf.old }
        ensures bound { IfGot result (λ n. n ≤ length buf.new) }
        ensures next { IfGot result (λ n.
            bytes_left self.old ≡ take n buf.new ++ bytes_left self.new) }
        ensures at_end { IfGot result (λ n. (n ≡ 0) ↔ (bytes_left self.old ≡ [])) }
        ensures no_fault { IfGot result (λ _. self.new.faults ≡ self.old.faults) }
        ensures same { OnReadFailed result (self.new.at ≡ self.old.at) }
        ensures cause { OnReadFailed result (self.new.faults ≡ next_count self.old.faults) }
        ensures later { self.old.faults ≤ self.new.faults }

        // Beyond what every source promises.
        ensures fails { (result ≡ Read.Failed) ↔ Contains self.old.failing.items self.old.calls }
        ensures count { IfGot result (λ n.
            n ≡ min (min (length buf.old) self.old.piece) (length (bytes_left self.old))) }
        ensures at { IfGot result (λ n. self.new.at ≡ self.old.at + n) }
        ensures beyond { IfGot result (λ n. drop n buf.new ≡ drop n buf.old) }
        ensures unread { OnReadFailed result (buf.new ≡ buf.old) }
        ensures calls { self.new.calls ≡ next_count self.old.calls }
        ensures keeps { KeepsSource self.old self.new }
    {
        let call = self.calls;
        self.calls = call.saturating_add(1);
        if is_failing(&self.failing, call) {
            self.faults = self.faults.saturating_add(1);
            return Read::Failed;
        }
        Read::Got(self.give(buf))
    }
}

impl Sink for MemorySink {
    ghost use Rattle.kmp_base.specs.Memory.{room_left, KeepsSink};

    ghost held = { λ sink. Some sink.held.items };

    ghost faults = { λ sink. sink.faults };

    fn write(&mut self, piece: &[u8]) -> Wrote
        requires { 0 < length piece.now }
        ensures least { IfTook result (λ n. 0 < n) }
        ensures bound { IfTook result (λ n. n ≤ length piece.now) }
        ensures appended { IfTook result (λ n.
            self.new.held.items ≡ self.old.held.items ++ take n piece.now) }
        ensures no_fault { IfTook result (λ _. self.new.faults ≡ self.old.faults) }
        ensures same { OnWriteFailed result (self.new.held.items ≡ self.old.held.items) }
        ensures cause { OnWriteFailed result (self.new.faults ≡ next_count self.old.faults) }
        ensures later { self.old.faults ≤ self.new.faults }

        // Beyond what every sink promises.
        ensures fails { (result ≡ Wrote.Failed)
            ↔ ((room_left self.old ≡ 0) ⊎ Contains self.old.failing.items self.old.calls) }
        ensures count { IfTook result (λ n. n ≡ min (length piece.now) (room_left self.old)) }
        ensures calls { self.new.calls ≡ next_count self.old.calls }
        ensures keeps { KeepsSink self.old self.new }
    {
        let call = self.calls;
        self.calls = call.saturating_add(1);
        let space = self.room - self.held.len();
        if space == 0 || is_failing(&self.failing, call) {
            self.faults = self.faults.saturating_add(1);
            return Wrote::Failed;
        }
        let count = piece.len().min(space);
        self.held.extend_from_slice(&piece[..count]).unwrap();
        Wrote::Took(count)
    }
}
