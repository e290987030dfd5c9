//! A memory that answers each request as it is served.
ghost use Rattle.std.specs.Prelude.{◌≡◌, ◌≤◌, ◌*◌, None, vec_len, IfOk};
ghost use Rattle.std.specs.List.{sum_by};
ghost use Rattle.image_file.specs.Value.{memory_bytes, start_memory};
ghost use Rattle.access_log.specs.Items.{after_items};
ghost use Rattle.mem_port.specs.Calls.{Obeys};
ghost use Rattle.mem_port.specs.Memory.{IsFresh, IsAtOnce};
ghost use Rattle.mem_port.specs.Flat.{flat, weight};

use crate::cell::{Cell, answer, cell_index};
use crate::{MemoryCore, Moved, NoMemory, Port, PortState, Withdrawal};
use access_log::{History, Request};
use image_file::{Image, Words, start_memory};
use std::alloc::Global;

/// The words of memory, the ports and the history.
#[derive(Drop)]
pub struct FlatMemory<'a> {
    image: &'a Image,
    cores: u32,
    words: Vec<u32>,
    cells: Vec<Cell>,
    history: History,
    ghost words_are: { words.items ≡ after_items (start_memory image.now) history.items },
    ghost size: { 4 * vec_len words ≡ memory_bytes image.now },
    ghost two_each: { vec_len cells ≡ 2 * cores },
    ghost few: { cores ≤ 8 },
    ghost room: { sum_by weight cells.items ≤ history.spare },
}

impl<'a> FlatMemory<'a> {
    /// A memory for 1 to 8 cores before its first call, in which so many requests may be asked on each
    /// port, 100,000 at most. All its memory is taken here; the error says that there wasn't enough.
    pub fn new(
        alloc: Global,
        image: &'a Image,
        cores: u32,
        asks: u32,
    ) -> Result<FlatMemory<'a>, NoMemory>
        requires some_cores { 1 ≤ cores }
        requires cores { cores ≤ 8 }
        requires asks { asks ≤ 100000 }
        ensures fresh { IfOk result (λ m. IsFresh image.now cores asks None (⟦<FlatMemory<'static> as MemoryCore>⟧.view m)) }
        ensures at_once { IfOk result (λ m. IsAtOnce (⟦<FlatMemory<'static> as MemoryCore>⟧.view m)) }
    {
        let words = start_memory(alloc, image)?.words;
        let cell = Cell {
            state: PortState::Free,
            asks,
        };
        let cells = vec![in alloc; cell; 2 * cores as usize]?;
        let history = History::new(alloc, 2 * cores * asks)?;
        Ok(FlatMemory {
            image,
            cores,
            words,
            cells,
            history,
        })
    }
}

impl MemoryCore for FlatMemory<'_> {
    ghost view = { λ m. flat m.image.now m.cores m.history.items m.cells.items };

    /// There is never anything to choose.
    ghost makes = { λ call m n. Obeys call (flat m.image.now m.cores m.history.items m.cells.items) (flat n.image.now n.cores n.history.items n.cells.items) };

    ghost obeys = { λ call m n made. made };

    fn ask(&mut self, port: Port, request: Request) {
        let index = cell_index(port);
        let Cell { asks, .. } = self.cells[index];
        self.cells[index] = Cell {
            state: PortState::Asked(request),
            asks: asks - 1,
        };
    }

    fn serve(&mut self, port: Port) {
        let index = cell_index(port);
        let Cell { state, asks } = self.cells[index];
        let PortState::Asked(request) = state else {
            unreachable!()
        };
        let word = answer(
            self.image,
            &mut self.words,
            &mut self.history,
            port,
            &request,
        );
        self.cells[index] = Cell {
            state: PortState::Answered(request, word),
            asks,
        };
    }

    fn step(&mut self, _choice: u32) -> Moved {
        Moved::Idle
    }

    fn take(&mut self, port: Port) -> Option<u32> {
        let index = cell_index(port);
        let Cell { state, asks } = self.cells[index];
        let PortState::Answered(_, word) = state else {
            unreachable!()
        };
        self.cells[index] = Cell {
            state: PortState::Free,
            asks,
        };
        Some(word)
    }

    fn withdraw(&mut self, port: Port) -> Withdrawal {
        let index = cell_index(port);
        let Cell { state, asks } = self.cells[index];
        self.cells[index] = Cell {
            state: PortState::Closed,
            asks,
        };
        match state {
            PortState::Answered(_, word) => Withdrawal::Answered(word),
            _ => Withdrawal::Withdrawn,
        }
    }

    fn settle(self) -> (Words, History) {
        (Words { words: self.words }, self.history)
    }
}
