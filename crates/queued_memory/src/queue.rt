//! The queue of the ports whose requests wait.
ghost use Rattle.std.specs.Prelude.{◌≡◌, ◌<◌, ◌≤◌, slice_get, Some, vec_len, vec_capacity, IfOk};
ghost use Rattle.queued_memory.specs.Queue.{seen, index_of, next_index, empty, joined, left, counted, answered};

use mem_port::{NoMemory, Port};
use std::alloc::Global;

/// The ports whose requests wait, the first one first, and when the next one is answered.
///
/// An odd choice lets the second one be answered before the first, but no first one is passed over
/// twice.
#[derive(Drop)]
pub struct Queue {
    /// How many steps lie between two answers.
    pub latency: u32,
    pub waiting: Vec<Port>,
    /// How many steps are left before the next answer.
    pub steps_left: u32,
    /// Whether the first one was passed over.
    pub passed: bool,
}

impl Queue {
    /// An empty queue with room for so many ports.
    pub fn new(alloc: Global, latency: u32, room: usize) -> Result<Queue, NoMemory>
        ensures empty { IfOk result (λ queue. seen queue ≡ empty latency) }
        ensures room { IfOk result (λ queue. room ≤ vec_capacity queue.waiting) }
    {
        Ok(Queue {
            latency,
            waiting: Vec::with_capacity(alloc, room)?,
            steps_left: latency,
            passed: false,
        })
    }

    /// The index of a port.
    pub fn index_of(&self, port: Port) -> Option<usize>
        ensures index { result ≡ index_of self.now.waiting.items port }
    {
        self.waiting.iter().position(|&other| other == port)
    }

    /// The index of the port that the choice lets be answered next.
    pub fn next_index(&self, choice: u32) -> usize
        ensures index { result ≡ next_index choice (seen self.now) }
    {
        if choice % 2 == 1 && !self.passed && self.waiting.len() > 1 {
            1
        } else {
            0
        }
    }

    /// A port joins behind all others.
    pub fn join(&mut self, port: Port)
        requires room { vec_len self.old.waiting < vec_capacity self.old.waiting }
        ensures queue { seen self.new ≡ joined port (seen self.old) }
        ensures room { vec_capacity self.new.waiting ≡ vec_capacity self.old.waiting }
    {
        self.waiting.push_reserved(port);
    }

    /// The port at an index leaves without an answer.
    pub fn leave(&mut self, index: usize)
        requires within { index < vec_len self.old.waiting }
        ensures queue { seen self.new ≡ left index (seen self.old) }
        ensures room { vec_capacity self.new.waiting ≡ vec_capacity self.old.waiting }
    {
        self.waiting.remove(index);
        if index == 0 {
            self.steps_left = self.latency;
            self.passed = false;
        }
    }

    /// The port at an index leaves for its answer.
    pub fn answer(&mut self, index: usize) -> Port
        requires within { index < vec_len self.old.waiting }
        ensures port { slice_get self.old.waiting.items index ≡ Some result }
        ensures queue { seen self.new ≡ answered index (seen self.old) }
        ensures room { vec_capacity self.new.waiting ≡ vec_capacity self.old.waiting }
    {
        self.steps_left = self.latency;
        self.passed = index == 1;
        self.waiting.remove(index)
    }
}
