//! An engine without a pipeline: it does one instruction after the other.
ghost use Rattle.std.specs.Prelude.{◌≡◌, ◌<◌, ◌+◌, ◌^◌, []};
ghost use Rattle.mem_port.specs.Loaded.{on_code, next_in, finish};
ghost use Rattle.core_run.specs.Lanes.{IsStarted};
ghost use Rattle.mem_port.specs.ServiceHistory.{ServiceHistory, IsFirstHistory};
ghost use Rattle.core_run.specs.PlainUses.{plain-uses};
ghost use Rattle.core_run.specs.PlainView.{plain_view, IsPlainHistory, under_way};

use crate::TimedEngine;
use access_log::Request;
use image_file::{Image, start_state};
use mem_port::{CoreEngine, Progress};
use mips_isa::{CoreState, Next, steps};
use std::alloc::Global;
use timetable::Rows;

/// Where the core is in its present instruction.
#[derive(Clone, Copy)]
pub enum Phase {
    /// At its begin: the word of code is wanted, where one stands there.
    Begin,
    /// The word came, and the instruction waits for the answer to its access.
    Access(Request),
    /// It stopped.
    Stopped,
    /// The budget ended while it waited, and its access wasn't done.
    GivenUp,
    /// The budget ended while it waited, and its access was done.
    FoundDone,
}

/// An unpipelined core. An instruction takes one clock, and one with an access a second one; a stop
/// takes one.
#[derive(Drop)]
pub struct Plain<'a> {
    image: &'a Image,
    core: u32,
    cores: u32,
    state: CoreState,
    executed: u32,
    phase: Phase,
    clocks_left: u32,
    ghost room: { executed + clocks_left + under_way phase < 2 ^ 32 },
}

impl<'a> Plain<'a> {
    /// The core with the number `core` of so many, at its start, with 2^32 - 1 clocks.
    pub fn new(image: &'a Image, core: u32, cores: u32) -> Plain<'a>
        ensures starts { IsStarted image.now core cores (⟦<Plain<'static> as CoreEngine>⟧.view result) }
        ensures clocks { (⟦<Plain<'static> as CoreEngine>⟧.view result).clocks_left ≡ 4294967295 }
        ensures timed { (history : ServiceHistory) → IsFirstHistory history → ⟦<Plain<'static> as CoreEngine>⟧.timed history result }
    {
        Plain {
            image,
            core,
            cores,
            state: start_state(image, core, cores),
            executed: 0,
            phase: Phase::Begin,
            clocks_left: u32::MAX,
        }
    }
}

/// Whether an instruction stands at an address.
fn is_on_code(image: &Image, addr: u32) -> bool
    ensures on_code { result ≡ on_code image.now addr }
{
    addr % 4 == 0 && addr < 4 * image.code.len() as u32
}

/// What a core does next.
#[tactic(auto, unfolding(mem_port::specs::Loaded::next_in))]
fn next_in(image: &Image, state: &CoreState) -> Next
    ensures next { result ≡ next_in image.now state.now }
{
    steps::next(&image.code, 8 * image.memory_lines, state)
}

/// The state behind an access, where the part of memory was `old`.
#[tactic(auto, unfolding(mem_port::specs::Loaded::finish))]
fn finished(image: &Image, state: &CoreState, old: u32) -> CoreState
    ensures finished { result ≡ finish image.now state.now old }
{
    steps::finish(&image.code, state, old)
}

impl CoreEngine for Plain<'_> {
    ghost view = { λ e. plain_view e.image.now e.core e.cores e.state e.executed e.phase e.clocks_left };

    ghost timed = { λ history e. IsPlainHistory history (plain_view e.image.now e.core e.cores e.state e.executed e.phase e.clocks_left) e.phase };

    ghost uses = { λ history e h. plain-uses history (plain_view e.image.now e.core e.cores e.state e.executed e.phase e.clocks_left) e.phase h };

    fn want_fetch(&self) -> Option<u32> {
        match self.phase {
            Phase::Begin => is_on_code(self.image, self.state.dpc).then_some(self.state.dpc),
            Phase::Access(_) | Phase::Stopped | Phase::GivenUp | Phase::FoundDone => None,
        }
    }

    fn want_access(&self) -> Option<Request> {
        match self.phase {
            Phase::Access(request) => Some(request),
            Phase::Begin | Phase::Stopped | Phase::GivenUp | Phase::FoundDone => None,
        }
    }

    #[tactic(auto, using(crate::proofs::PlainLemmas::next_words))]
    fn clock(&mut self, fetched: Option<u32>, reply: Option<u32>) -> Progress {
        let wanted = self.want_fetch();
        self.clocks_left -= 1;
        match self.phase {
            Phase::Begin => {
                if fetched.is_none() && wanted.is_some() {
                    return Progress::Running;
                }
                match next_in(self.image, &self.state) {
                    Next::Stops(stop) => {
                        self.phase = Phase::Stopped;
                        Progress::Stopped(stop)
                    }
                    Next::Asks(access) => {
                        self.phase = Phase::Access(Request::of(self.executed, &access));
                        Progress::Running
                    }
                    Next::Goes(state) => {
                        self.state = state;
                        self.executed += 1;
                        Progress::Running
                    }
                }
            }
            Phase::Access(_) => {
                let Some(old) = reply else {
                    return Progress::Running;
                };
                self.state = finished(self.image, &self.state, old);
                self.executed += 1;
                self.phase = Phase::Begin;
                Progress::Running
            }
            Phase::Stopped | Phase::GivenUp | Phase::FoundDone => unreachable!(),
        }
    }

    fn drain(&mut self, reply: Option<u32>) {
        let Some(old) = reply else {
            self.phase = Phase::GivenUp;
            return;
        };
        self.phase = Phase::FoundDone;
        self.state = finished(self.image, &self.state, old);
        self.executed += 1;
    }

    fn executed(&self) -> u32 {
        self.executed
    }

    fn state(&self) -> CoreState {
        self.state
    }
}

impl TimedEngine for Plain<'_> {
    ghost rows = { λ e. [] };

    fn into_rows(self, alloc: Global) -> Rows {
        Rows::empty(alloc)
    }
}
