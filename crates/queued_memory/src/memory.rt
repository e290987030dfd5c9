//! A memory round another one, with a queue before it.
ghost use Rattle.std.specs.Prelude.{◌≡◌, ◌≤◌, ◌*◌, true, vec_capacity, IfOk};
ghost use Rattle.mem_port.specs.Memory.{IsLawful, IsAtOnce};
ghost use Rattle.queued_memory.specs.Queue.{seen, queued, IsQueue, IsMade, StaysFresh};
ghost use Rattle.queued_memory.specs.Props.{IsQueue-prop};

use crate::queue::Queue;
use access_log::{History, Request};
use image_file::Words;
use mem_port::{MemoryCore, Moved, NoMemory, Port, Withdrawal};
use std::alloc::Global;

/// A memory round one that answers at once. A request that is served waits in a queue, behind those
/// that were served before.
///
/// While some request waits, each `4 * cores + 3`rd step answers one: the first; or, where its
/// choice is odd, the second, if there is one and the first wasn't passed over yet. Where the first
/// is withdrawn, these steps begin again.
#[derive(Drop)]
pub struct QueuedMemory<M: MemoryCore> {
    memory: M,
    queue: Queue,
    ghost ordered: { IsQueue (seen queue) (M.view memory) } by { IsQueue-prop (seen queue) (M.view memory) },
    ghost room: { 2 * (M.view memory).cores ≤ vec_capacity queue.waiting },
}

impl<M: MemoryCore> QueuedMemory<M> {
    /// A memory with an empty queue, round one for so many cores. The room of the queue is taken
    /// here.
    pub fn new(alloc: Global, memory: M, cores: u32) -> Result<QueuedMemory<M>, NoMemory>
        requires cores { cores ≤ 8 }
        requires cores_are { (M.view memory).cores ≡ cores }
        requires lawful { IsLawful (M.view memory) }
        requires at_once { IsAtOnce (M.view memory) }
        ensures fresh { IfOk result (λ m. StaysFresh (M.view memory) (⟦<QueuedMemory<M> as MemoryCore>⟧.view m)) }
        ensures tells_distances { IfOk result (λ m. (⟦<QueuedMemory<M> as MemoryCore>⟧.view m).tells_distances ≡ true) }
        ensures tells_load { IfOk result (λ m. (⟦<QueuedMemory<M> as MemoryCore>⟧.view m).tells_load ≡ true) }
    {
        let queue = Queue::new(alloc, 4 * cores + 3, 2 * cores as usize)?;
        Ok(QueuedMemory { memory, queue })
    }
}

impl<M: MemoryCore> MemoryCore for QueuedMemory<M> {
    ghost view = { λ m. queued (seen m.queue) (M.view m.memory) };

    ghost makes = { λ call m n. IsMade call (seen m.queue) (M.view m.memory) (seen n.queue) (M.view n.memory) };

    ghost obeys = { λ call m n made. made.obeys };

    fn ask(&mut self, port: Port, request: Request) {
        self.memory.ask(port, request);
    }

    fn serve(&mut self, port: Port) {
        self.queue.join(port);
    }

    fn step(&mut self, choice: u32) -> Moved {
        if self.queue.waiting.is_empty() {
            return Moved::Idle;
        }
        if self.queue.steps_left > 1 {
            self.queue.steps_left -= 1;
            return Moved::Moved;
        }
        let index = self.queue.next_index(choice);
        let port = self.queue.answer(index);
        self.memory.serve(port);
        Moved::Moved
    }

    fn take(&mut self, port: Port) -> Option<u32> {
        match self.queue.index_of(port) {
            Some(_) => None,
            None => self.memory.take(port),
        }
    }

    fn withdraw(&mut self, port: Port) -> Withdrawal {
        if let Some(index) = self.queue.index_of(port) {
            self.queue.leave(index);
            return self.memory.withdraw(port);
        }
        self.memory.withdraw(port)
    }

    fn settle(self) -> (Words, History) {
        self.memory.settle()
    }
}
