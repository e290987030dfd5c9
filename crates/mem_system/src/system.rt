//! Ports, queue, and the caches behind them.
ghost use Rattle.std.specs.Prelude.{◌≡◌, ℕ, ◌<◌, ◌≤◌, ◌+◌, ◌*◌, ◌∷◌, Some, slice_index, vec_len, vec_capacity, IfOk};
ghost use Rattle.std.specs.List.{sum_by};
ghost use Rattle.letters.specs.Caches.{moesi, all_with};
ghost use Rattle.mem_port.specs.Ports.{MayAsk};
ghost use Rattle.mem_port.specs.Memory.{IsFresh};
ghost use Rattle.cache_bus.specs.View.{port_of};
ghost use Rattle.mem_system.specs.System.{seen, system, main_memory, IsQuiet, IsQueued, weight, idle, MakesHit, IsMade};
ghost use Rattle.mem_system.specs.Props.{IsQuiet-prop};

use crate::NoMemory;
use access_log::{History, Request};
use cache_bus::CacheBus;
use image_file::{Image, Words};
use mem_port::{Cell, MemoryCore, Moved, Port, PortState, Withdrawal, cell_index};
use std::alloc::Global;

/// The memory of 1 to 8 cores, with two caches for each: cache 2c stands behind the fetches of core c,
/// and cache 2c + 1 behind its accesses. The caches follow the MOESI protocol.
#[derive(Drop)]
pub struct MemSystem<'a> {
    bus: CacheBus<'a>,
    cells: Vec<Cell>,
    /// The caches whose requests wait, the first one first.
    queue: Vec<u32>,
    ghost few: { bus.cores ≤ 8 },
    ghost two_each: { vec_len cells ≡ 2 * bus.cores },
    ghost quiet: { IsQuiet bus } by { IsQuiet-prop bus },
    ghost queued: { IsQueued cells.items queue.items },
    ghost room: { sum_by weight cells.items ≤ bus.spare },
    ghost queue_room: { vec_len queue + sum_by idle cells.items ≤ vec_capacity queue },
}

/// The port in front of a cache.
fn port_of(cache: u32) -> Port
    ensures port { result ≡ port_of cache }
{
    if cache % 2 == 0 {
        Port::Fetch(cache / 2)
    } else {
        Port::Access(cache / 2)
    }
}

/// Takes the first out of a queue.
fn take_first(queue: &mut Vec<u32>) -> u32
    requires some { 0 < vec_len queue.old }
    ensures first { queue.old.items ≡ result ∷ queue.new.items }
    ensures capacity { vec_capacity queue.new ≡ vec_capacity queue.old }
{
    queue.remove(0)
}

/// Makes a request a hit: by a transaction, where it isn't one.
fn make_hit(bus: &mut CacheBus, cache: u32, request: &Request)
    requires quiet { IsQuiet bus.old }
    requires cache { cache < 2 * bus.old.cores }
    requires proper { MayAsk bus.old.image (port_of cache) request.now }
    requires room { 1 ≤ bus.old.spare }
    ensures hit { MakesHit cache request.now bus.old bus.new }
{
    if bus.serves(cache, request) {
        return;
    }
    bus.begin(cache, request);
    bus.transact();
}

impl<'a> MemSystem<'a> {
    /// A memory for 1 to 8 cores before its first call, in which so many requests may be asked on each
    /// port, 100,000 at most. Each cache has so many sets of one line. All its memory is taken here;
    /// the error says that there wasn't enough.
    pub fn new(
        alloc: Global,
        image: &'a Image,
        cores: u32,
        sets: u32,
        asks: u32,
    ) -> Result<MemSystem<'a>, NoMemory>
        requires some_cores { 1 ≤ cores }
        requires cores { cores ≤ 8 }
        requires some_sets { 1 ≤ sets }
        requires asks { asks ≤ 100000 }
        ensures fresh { IfOk result (λ m. IsFresh image.now cores asks (Some (all_with moesi sets 1))
            (⟦<MemSystem<'static> as MemoryCore>⟧.view m)) }
    {
        let bus = CacheBus::new(alloc, image, cores, sets, 4 * cores * asks)?;
        let cell = Cell {
            state: PortState::Free,
            asks,
        };
        let cells = vec![in alloc; cell; 2 * cores as usize]?;
        let queue = Vec::with_capacity(alloc, 2 * cores as usize)?;
        Ok(MemSystem { bus, cells, queue })
    }

    /// The words that main memory holds for a line of 8 bytes, whatever the caches hold: those that
    /// were written back.
    pub fn in_memory(&self, line: u32) -> [u32; 2]
        requires inside { line < (⟦<MemSystem<'static> as MemoryCore>⟧.view self.now).image.memory_lines }
        ensures words { (half : ℕ) → half < 2 → slice_index result half
            ≡ slice_index (main_memory (⟦<MemSystem<'static> as MemoryCore>⟧.view self.now)) (2 * line + half) }
    {
        self.bus.in_memory(line)
    }
}

impl MemoryCore for MemSystem<'_> {
    ghost view = { λ m. system (seen m.bus m.cells.items m.queue.items) };

    /// There is never anything to choose.
    ghost makes = { λ call m n. IsMade call (seen m.bus m.cells.items m.queue.items) (seen n.bus n.cells.items n.queue.items) };

    ghost obeys = { λ call m n made. made.obeys };

    fn ask(&mut self, port: Port, request: Request) {
        let index = cell_index(port);
        let Cell { asks, .. } = self.cells[index];
        self.cells[index] = Cell {
            state: PortState::Asked(request),
            asks: asks - 1,
        };
    }

    fn serve(&mut self, port: Port) {
        let index = cell_index(port);
        let Cell { state, asks } = self.cells[index];
        let PortState::Asked(request) = state else {
            unreachable!()
        };
        if self.bus.serves(index as u32, &request) {
            let word = self.bus.answer(port, &request);
            self.cells[index] = Cell {
                state: PortState::Answered(request, word),
                asks,
            };
        } else {
            self.queue.push_reserved(index as u32);
            self.cells[index] = Cell {
                state: PortState::Waiting(request),
                asks,
            };
        }
    }

    fn step(&mut self, _choice: u32) -> Moved {
        if self.queue.is_empty() {
            return Moved::Idle;
        }
        let cache = take_first(&mut self.queue);
        let Cell { state, asks } = self.cells[cache as usize];
        let PortState::Waiting(request) = state else {
            unreachable!()
        };
        make_hit(&mut self.bus, cache, &request);
        let port = port_of(cache);
        let word = self.bus.answer(port, &request);
        self.cells[cache as usize] = Cell {
            state: PortState::Answered(request, word),
            asks,
        };
        Moved::Moved
    }

    fn take(&mut self, port: Port) -> Option<u32> {
        let index = cell_index(port);
        let Cell { state, asks } = self.cells[index];
        let PortState::Answered(_, word) = state else {
            return None;
        };
        self.cells[index] = Cell {
            state: PortState::Free,
            asks,
        };
        Some(word)
    }

    fn withdraw(&mut self, port: Port) -> Withdrawal {
        let index = cell_index(port);
        let Cell { state, asks } = self.cells[index];
        let cache = index as u32;
        self.queue.retain(|&other| other != cache);
        self.cells[index] = Cell {
            state: PortState::Closed,
            asks,
        };
        match state {
            PortState::Answered(_, word) => Withdrawal::Answered(word),
            _ => Withdrawal::Withdrawn,
        }
    }

    fn settle(self) -> (Words, History) {
        self.bus.into_parts()
    }
}
