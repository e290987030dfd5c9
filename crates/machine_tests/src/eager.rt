//! An engine that wants a word of code and an access in one cycle.
ghost use Rattle.std.specs.Prelude.{◌≡◌, ℕ, true, Some};
ghost use Rattle.mem_port.specs.Loaded.{on_code, request};
ghost use Rattle.machine_tests.specs.Eager.{eager_view, left_of, state_after, IsEager};

use access_log::Request;
use image_file::Image;
use mem_port::{CoreEngine, Progress};
use mips_isa::{CoreState, Next, steps};

/// It waits for the access of its first instruction and for a word of code, whichever comes first,
/// and does nothing more.
#[derive(Drop)]
pub struct Eager<'a> {
    image: &'a Image,
    core: u32,
    cores: u32,
    state: CoreState,
    fetch: Option<u32>,
    access: Option<Request>,
    is_live: bool,
    clocks_left: u32,
}

/// The access of a core that has executed nothing, if it makes one next.
#[tactic(auto, unfolding(mem_port::specs::Loaded::request, mem_port::specs::Loaded::next_in))]
fn first_request(image: &Image, state: &CoreState) -> Option<Request>
    ensures request { result ≡ request image.now 0 state.now }
{
    match steps::next(&image.code, 8 * image.memory_lines, state) {
        Next::Asks(access) => Some(Request::of(0, &access)),
        Next::Stops(_) | Next::Goes(_) => None,
    }
}

/// The state of a core behind a clock with this answer to its access.
#[tactic(auto, unfolding(mem_port::specs::Loaded::finish))]
fn state_after(image: &Image, state: &CoreState, reply: Option<u32>) -> CoreState
    ensures state { result ≡ state_after image.now state.now reply }
{
    match reply {
        Some(old) => steps::finish(&image.code, state, old),
        None => *state,
    }
}

/// What is wanted still, where this came.
fn left_of<W: Copy>(want: Option<W>, came: Option<u32>) -> Option<W>
    ensures left { result ≡ left_of want came }
{
    match came {
        Some(_) => None,
        None => want,
    }
}

impl<'a> Eager<'a> {
    /// The core with the number `core` of so many, at its start, with 100 clocks; the word of code is
    /// that at a byte address, or none.
    pub fn new(image: &'a Image, core: u32, cores: u32, fetch: Option<u32>) -> Eager<'a>
        requires fetch { (addr : ℕ) → fetch ≡ Some addr → on_code image.now addr ≡ true }
        ensures eager { IsEager image.now core cores (⟦<Eager<'static> as CoreEngine>⟧.view result) }
    {
        let state = steps::start(core, cores);
        Eager {
            image,
            core,
            cores,
            state,
            fetch,
            access: first_request(image, &state),
            is_live: true,
            clocks_left: 100,
        }
    }
}

impl CoreEngine for Eager<'_> {
    ghost view = { λ e. eager_view e.image.now e.core e.cores e.state e.fetch e.access e.is_live e.clocks_left };

    /// It tells nothing of its times.
    ghost timed = { λ history e. ⊥ };

    ghost uses = { λ history e told. absurd told };

    fn want_fetch(&self) -> Option<u32> {
        self.fetch
    }

    fn want_access(&self) -> Option<Request> {
        self.access
    }

    fn clock(&mut self, fetched: Option<u32>, reply: Option<u32>) -> Progress {
        self.clocks_left -= 1;
        self.state = state_after(self.image, &self.state, reply);
        self.fetch = left_of(self.fetch, fetched);
        self.access = left_of(self.access, reply);
        Progress::Running
    }

    fn drain(&mut self, reply: Option<u32>) {
        self.is_live = false;
        self.state = state_after(self.image, &self.state, reply);
        self.access = left_of(self.access, reply);
    }

    fn executed(&self) -> u32 {
        match self.access {
            Some(_) => 0,
            None => 1,
        }
    }

    fn state(&self) -> CoreState {
        self.state
    }
}
