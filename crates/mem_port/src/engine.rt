//! The law of an engine that runs one core.
ghost use Rattle.std.specs.Prelude.{◌≡◌, ◌≤◌, IsSome, true};
ghost use Rattle.mem_port.specs.Engine.{EngineView, IsSound, FetchFits, ReplyFits, Clocks, Drains};
ghost use Rattle.mem_port.specs.ServiceHistory.{ServiceHistory, AfterClock, AfterDrain, UsesService};

use access_log::Request;
use mips_isa::{CoreState, Stop};

/// How a clock of an engine ended.
#[derive(Clone, Copy)]
pub enum Progress {
    Running,
    /// The core came to a stop, and will not be clocked again.
    Stopped(Stop),
}

/// An engine that runs one core, clock by clock. It wants words of code and answers to accesses,
/// and goes on with what it is given.
///
/// No call has an allocator, or an answer for want of memory.
pub trait CoreEngine: Drop {
    /// The engine as contracts see it.
    ghost view: { Self → EngineView };

    /// What it tells of its own times, where its wants were met as this history says.
    ghost timed: { ServiceHistory → Self → Type 0 };

    /// It never idles but where a want stays unmet, and fetches no more than it needs.
    ghost uses: { (history : ServiceHistory) (e : Self) → timed history e → UsesService history.service (view e).executed };

    /// The byte address of the word of code that it waits for, if any.
    fn want_fetch(&self) -> Option<u32>
        ensures want { result ≡ (view self.now).fetch };

    /// The access whose answer it waits for, if any.
    fn want_access(&self) -> Option<Request>
        ensures want { result ≡ (view self.now).access };

    /// One clock, with the word and the answer that came for it.
    fn clock(&mut self, fetched: Option<u32>, reply: Option<u32>) -> Progress
        requires sound { IsSound (view self.old) }
        requires live { (view self.old).is_live ≡ true }
        requires clocks { 1 ≤ (view self.old).clocks_left }
        requires fetch_fits { FetchFits (view self.old).image (view self.old).fetch fetched }
        requires reply_fits { ReplyFits (view self.old).access reply }
        ensures sound { IsSound (view self.new) }
        ensures clocks { Clocks fetched reply result (view self.old) (view self.new) }
        ensures timed { (p q : ServiceHistory) → timed p self.old → AfterClock fetched reply (view self.old) p q → timed q self.new };

    /// Ends it where its budget ends while an access is wanted, with the answer if the access was
    /// done.
    fn drain(&mut self, reply: Option<u32>)
        requires sound { IsSound (view self.old) }
        requires live { (view self.old).is_live ≡ true }
        requires wants { IsSome (view self.old).access }
        ensures drains { Drains reply (view self.old) (view self.new) }
        ensures timed { (p q : ServiceHistory) → timed p self.old → AfterDrain reply (view self.old) p q → timed q self.new };

    /// The number of instructions that it has executed.
    fn executed(&self) -> u32
        ensures executed { result ≡ (view self.now).executed };

    /// The state of its core behind these.
    fn state(&self) -> CoreState
        ensures state { result ≡ (view self.now).state };
}
