//! A sink that collects what it takes, and puts it beneath in long pieces.
ghost use Rattle.std.specs.Prelude.{◌≡◌, ◌<◌, ◌≤◌, ◌⊎◌, [], length, take, IfOk, IfErr, OnOk, OnErr, IsOk, vec_len};
ghost use Rattle.std.specs.Vec.{vec_capacity};
ghost use Rattle.kmp_base.specs.Streams.{IfTook, OnWriteFailed, Rose, Appended, Writes};

use crate::transfer::put_front;
use crate::{Sink, WriteFault, Wrote, put};
use std::alloc::Global;

/// A sink over another one. What it takes waits in it until it is full, and is put beneath then; so
/// many short pieces are one write there. What still waits at the end [`Collected::finish`] puts; it
/// can't be dropped, so nobody forgets that.
pub struct Collected<K> {
    /// Where what was collected is put.
    pub sink: K,
    /// The bytes that were taken and not put yet.
    pub waiting: Vec<u8>,
    /// The most bytes that wait. Their memory was taken when it was made.
    pub room: usize,
    ghost some_room: { 0 < room },
    ghost within_room: { vec_len waiting ≤ room },
    ghost reserved: { room ≤ vec_capacity waiting },
}

impl<K: Sink> Collected<K> {
    ghost use Rattle.kmp_base.specs.Collected.{with_waiting};

    /// A sink in which `room` bytes may wait. The one beneath is given back where no memory is left.
    pub fn new(alloc: Global, room: usize, sink: K) -> Result<Self, K>
        requires { 0 < room }
        ensures sink { IfOk result (λ collected. collected.sink ≡ sink) }
        ensures waiting { IfOk result (λ collected. collected.waiting.items ≡ []) }
        ensures room { IfOk result (λ collected. collected.room ≡ room) }
        ensures given_back { IfErr result (λ beneath. beneath ≡ sink) }
    {
        match Vec::with_capacity(alloc, room) {
            Ok(waiting) => Ok(Collected {
                sink,
                waiting,
                room,
            }),
            Err(_) => Err(sink),
        }
    }

    /// Puts what still waits, and gives the sink beneath back.
    pub fn finish(self) -> (K, Result<(), WriteFault>)
        ensures writes { Writes K.held K.faults self.sink result.0 result.1 self.waiting.items }
        ensures no_call { self.waiting.items ≡ [] → IsOk result.1 × (result.0 ≡ self.sink) }
    {
        let Collected {
            mut sink,
            waiting,
            room: _,
        } = self;
        let result = put(&mut sink, &waiting);
        (sink, result)
    }

    // Puts what waits. After a fault the bytes that were put wait no longer.
    fn put_waiting(&mut self) -> Result<(), WriteFault>
        ensures held { with_waiting K.held self.new ≡ with_waiting K.held self.old }
        ensures whole { OnOk result (self.new.waiting.items ≡ []) }
        ensures no_fault { OnOk result (K.faults self.new.sink ≡ K.faults self.old.sink) }
        ensures cause { OnErr result (Rose (K.faults self.old.sink) (K.faults self.new.sink)) }
        ensures later { K.faults self.old.sink ≤ K.faults self.new.sink }
        ensures room { self.new.room ≡ self.old.room }
    {
        let count = put_front(&mut self.sink, &self.waiting);
        if count < self.waiting.len() {
            self.waiting.drain(..count);
            return Err(WriteFault);
        }
        self.waiting.clear();
        Ok(())
    }
}

impl<K: Sink> Sink for Collected<K> {
    ghost use Rattle.kmp_base.specs.Collected.{with_waiting, faults_beneath};

    ghost held = { with_waiting K.held };

    ghost faults = { faults_beneath K.faults };

    fn write(&mut self, piece: &[u8]) -> Wrote
        requires { 0 < length piece.now }
        ensures least { IfTook result (λ n. 0 < n) }
        ensures bound { IfTook result (λ n. n ≤ length piece.now) }
        ensures appended { IfTook result (λ n.
            Appended (with_waiting K.held self.old)
            (with_waiting K.held self.new) (take n piece.now)) }
        ensures no_fault { IfTook result (λ _. K.faults self.new.sink ≡ K.faults self.old.sink) }
        ensures same { OnWriteFailed result
            (with_waiting K.held self.new
            ≡ with_waiting K.held self.old) }
        ensures cause { OnWriteFailed result
            (Rose (K.faults self.old.sink) (K.faults self.new.sink)) }
        ensures later { K.faults self.old.sink ≤ K.faults self.new.sink }

        // Beyond what every sink promises: nothing is put before it is full, and it is filled up.
        ensures quiet { vec_len self.old.waiting < self.old.room → self.new.sink ≡ self.old.sink }
        ensures filled { IfTook result (λ n.
            (n ≡ length piece.now) ⊎ (vec_len self.new.waiting ≡ self.new.room)) }
        ensures room { self.new.room ≡ self.old.room }
    {
        if self.waiting.len() == self.room && self.put_waiting().is_err() {
            return Wrote::Failed;
        }
        let count = piece.len().min(self.room - self.waiting.len());
        self.waiting.extend_from_slice(&piece[..count]).unwrap();
        Wrote::Took(count)
    }
}
