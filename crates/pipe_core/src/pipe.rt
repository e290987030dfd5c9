//! An engine with five stages, as others see it.
ghost use Rattle.std.specs.Prelude.{◌≡◌, ◌≤◌, ◌<◌, ◌+◌, [], true, IfOk};
ghost use Rattle.image_file.specs.Value.{IsGood};
ghost use Rattle.pipe_core.specs.Steps.{IsFit};
ghost use Rattle.pipe_core.specs.Wants.{stop_in, IsKnown};
ghost use Rattle.pipe_core.specs.Clock.{drained, flight_after};
ghost use Rattle.pipe_core.specs.Table.{table_after};

use crate::Flight;
use crate::flight::{starting, state_of};
use crate::moves::{commit, retire, step};
use crate::reads::{access_of, enabled, fetch_of, goes, read, stop_of, word};
use crate::table::Table;
use access_log::Request;
use image_file::Image;
use mem_port::{CoreEngine, Progress};
use mips_isa::{CoreState, Stop};
use std::alloc::Global;
use std::marker::Model;
use timetable::{NoMemory, Rows};

/// An engine that has up to four instructions under way, and a fifth one that writes its register.
#[derive(Drop)]
pub struct Pipe<'a> {
    image: &'a Image,
    core: u32,
    cores: u32,
    budget: u32,
    clocks: u32,
    live: bool,
    flight: Flight,
    table: Table,
}

impl<'a> Model for Pipe<'a> {
    ghost use Rattle.pipe_core.specs.PipeView.{PipeValue, pipe_of, IsPipe};

    ghost Value = { PipeValue };

    ghost view = { λ p. pipe_of p.image.now p.core p.cores p.budget p.clocks p.live p.flight p.table };

    ghost invariant = { λ p. IsPipe (pipe_of p.image.now p.core p.cores p.budget p.clocks p.live p.flight p.table) };
}

/// The lines of an image's memory. Its type says that it is a good one.
fn lines_of(image: &Image) -> u32
    ensures good { IsGood image.now }
{
    image.memory_lines
}

impl<'a> Pipe<'a> {
    ghost use Rattle.mem_port.specs.Engine.{IsSound};
    ghost use Rattle.mem_port.specs.ServiceHistory.{ServiceHistory, IsFirstHistory};
    ghost use Rattle.pipe_core.specs.PipeView.{PipeValue, IsPipe, IsStarted, pipe_view};
    ghost use Rattle.pipe_core.specs.PipeHistory.{pipe_timed};

    /// The engine of the core with the number `core` of so many, at its start, with room for the rows of its budget.
    ///
    /// All its memory is taken here.
    pub fn new(
        alloc: Global,
        image: &'a Image,
        core: u32,
        cores: u32,
        budget: u32,
    ) -> Result<Pipe<'a>, NoMemory>
        requires budget { budget ≤ 100000 }
        ensures start { IfOk result (λ p. IsStarted image.now core cores budget p) }
        ensures sound { IfOk result (λ p. IsSound (pipe_view p)) }
        ensures timed { IfOk result (λ p. (history : ServiceHistory) → IsFirstHistory history → pipe_timed history p) }
    {
        let table = Table::new(alloc, budget + 1)?;
        let _lines = lines_of(image);
        Ok(Pipe {
            image,
            core,
            cores,
            budget,
            clocks: 0,
            live: true,
            flight: starting(image, core, cores),
            table,
        })
    }
}

/// One clock: the stop in M, or all goes on.
#[tactic(auto, unfolding(crate::specs::Clock::clocked))]
fn run(
    image: &Image,
    flight: &mut Flight,
    table: &mut Table,
    fetched: Option<u32>,
    reply: Option<u32>,
    clock: u32,
) -> Option<Stop>
    requires known { IsKnown image.now flight.old.stages.mem }
    requires fit { IsFit flight.old }
    requires clock { clock ≤ 100001 }
    requires executed { flight.old.executed ≤ 100001 }
    requires spare { 0 < table.old.spare }
    ensures stop { result ≡ stop_in image.now flight.old.stages.mem }
    ensures flight { flight.new ≡ flight_after result image.now fetched reply clock flight.old }
    ensures table { table.new ≡ table_after result image.now reply clock flight.old table.old }
    ensures fit { IsFit flight.new }
    ensures executed { flight.new.executed ≤ flight.old.executed + 1 }
    ensures spare { table.old.spare ≤ table.new.spare + 1 }
{
    let mem = flight.stages.mem;
    let times = flight.mem_times;
    if let Some(stop) = stop_of(image, &mem) {
        table.end(&mem, times, clock);
        return Some(stop);
    }
    let access = access_of(image, &mem, flight.executed);
    let goes = goes(&mem, &access, reply);
    let operands = read(&flight.stages);
    let word = word(image, flight, fetched);
    table.keep(goes, &mem, times, &access, clock);
    let enables = enabled(flight, &goes, &operands, &word);
    step(flight, enables, goes, operands, word, clock);
    None
}

/// The access in M is executed where it was answered.
#[tactic(auto, unfolding(crate::specs::Clock::drained))]
fn empty(image: &Image, flight: &mut Flight, table: &mut Table, reply: Option<u32>, clock: u32)
    requires known { IsKnown image.now flight.old.stages.mem }
    requires fit { IsFit flight.old }
    requires clock { clock ≤ 100001 }
    requires executed { flight.old.executed ≤ 100001 }
    requires spare { 0 < table.old.spare }
    ensures flight { flight.new ≡ drained image.now reply flight.old }
    ensures table { table.new ≡ table_after None image.now reply clock flight.old table.old }
    ensures fit { IsFit flight.new }
    ensures executed { flight.new.executed ≤ flight.old.executed + 1 }
    ensures spare { table.old.spare ≤ table.new.spare + 1 }
{
    let mem = flight.stages.mem;
    let access = access_of(image, &mem, flight.executed);
    let goes = goes(&mem, &access, reply);
    table.keep(goes, &mem, flight.mem_times, &access, clock);
    commit(flight);
    retire(flight, goes);
}

impl<'a> Pipe<'a> {
    ghost use Rattle.std.specs.Prelude.{None, ◌⊎◌};
    ghost use Rattle.timetable.specs.Tables.{IsTable};
    ghost use Rattle.pipe_core.specs.Punctual.{EndInStop};

    /// The rows of the instructions that are executed or have stopped.
    pub fn rows(&self) -> &Rows
        ensures rows { result.now.rows ≡ self.now.table.rows }
        ensures table { IsTable None [] self.now.table.instrs self.now.table.rows ⊎ EndInStop None self.now.table.instrs self.now.table.rows }
    {
        self.table.rows()
    }

    /// The same rows, at its end. It takes no memory.
    pub fn into_rows(self) -> Rows
        ensures rows { result.rows ≡ self.entry.table.rows }
    {
        self.table.into_rows()
    }
}

impl CoreEngine for Pipe<'_> {
    ghost use Rattle.mem_port.specs.Engine.{IsSound, FetchFits, ReplyFits, Clocks};
    ghost use Rattle.mem_port.specs.ServiceHistory.{ServiceHistory, AfterClock};
    ghost use Rattle.pipe_core.specs.PipeView.{pipe_view, PipeClocks};
    ghost use Rattle.pipe_core.specs.PipeHistory.{pipe_timed};
    ghost use Rattle.pipe_core.specs.PipeUses.{pipe-uses};

    ghost view = { pipe_view };

    ghost timed = { pipe_timed };

    ghost uses = { pipe-uses };

    fn want_fetch(&self) -> Option<u32> {
        fetch_of(self.image, &self.flight)
    }

    fn want_access(&self) -> Option<Request> {
        access_of(self.image, &self.flight.stages.mem, self.flight.executed)
    }

    fn clock(&mut self, fetched: Option<u32>, reply: Option<u32>) -> Progress
        requires sound { IsSound (pipe_view self.old) }
        requires live { (pipe_view self.old).is_live ≡ true }
        requires clocks { 1 ≤ (pipe_view self.old).clocks_left }
        requires fetch_fits { FetchFits (pipe_view self.old).image (pipe_view self.old).fetch fetched }
        requires reply_fits { ReplyFits (pipe_view self.old).access reply }
        ensures sound { IsSound (pipe_view self.new) }
        ensures clocks { Clocks fetched reply result (pipe_view self.old) (pipe_view self.new) }
        ensures timed { (p q : ServiceHistory) → pipe_timed p self.old → AfterClock fetched reply (pipe_view self.old) p q → pipe_timed q self.new }
        ensures pipe { PipeClocks fetched reply result self.old self.new }
    {
        self.clocks += 1;
        match run(
            self.image,
            &mut self.flight,
            &mut self.table,
            fetched,
            reply,
            self.clocks,
        ) {
            None => Progress::Running,
            Some(stop) => {
                self.live = false;
                Progress::Stopped(stop)
            }
        }
    }

    fn drain(&mut self, reply: Option<u32>) {
        self.live = false;
        empty(
            self.image,
            &mut self.flight,
            &mut self.table,
            reply,
            self.clocks + 1,
        );
    }

    fn executed(&self) -> u32 {
        self.flight.executed
    }

    fn state(&self) -> CoreState {
        state_of(&self.flight)
    }
}
