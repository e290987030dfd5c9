//! The law of a memory that serves several cores.
ghost use Rattle.std.specs.Prelude.{◌≡◌, ◌<◌, ◌≤◌};
ghost use Rattle.access_log.specs.declared.request.Request.{Request};
ghost use Rattle.mem_port.specs.declared.port.Port.{Port};
ghost use Rattle.mem_port.specs.declared.port.PortState.TheVariants.{Free, Asked};
ghost use Rattle.mem_port.specs.Ports.{core_of, MayAsk, IsServed, IsOpen, IsAtRest};
ghost use Rattle.mem_port.specs.Calls.{Call, Ask, Serve, Step, Take, Withdraw, Obeys};
ghost use Rattle.mem_port.specs.Memory.{MemoryView, IsLawful, Asks, Serves, Steps, Takes, Withdraws, Settles};

use crate::{Moved, Port, Withdrawal};
use access_log::{History, Request};
use image_file::Words;

/// A memory with two ports for each core, and the history of what was done in it.
///
/// No call has an allocator, or an answer for want of memory: all room is taken when it is made.
pub trait MemoryCore: Drop {
    /// The memory as contracts see it.
    ghost view: { Self → MemoryView };

    /// That a call was made, with what it was given and what it answered, and led from one state to
    /// another: where several things can be moved, it tells which of them a choice takes.
    ghost makes: { Call → Self → Self → Type 0 };

    /// Each call that is made so keeps the law.
    ghost obeys: { (call : Call) (m n : Self) → makes call m n → Obeys call (view m) (view n) };

    /// Puts a request on a free port.
    fn ask(&mut self, port: Port, request: Request)
        requires lawful { IsLawful (view self.old) }
        requires core { core_of port < (view self.old).cores }
        requires free { (view self.old).port port ≡ Free }
        requires left { 1 ≤ (view self.old).asks_left port }
        requires proper { MayAsk (view self.old).image port request }
        ensures lawful { IsLawful (view self.new) }
        ensures asks { Asks port request (view self.old) (view self.new) }
        ensures made { makes (Ask port request) self.old self.new };

    /// Begins to do the request on a port: it waits afterwards, or is done.
    fn serve(&mut self, port: Port)
        requires lawful { IsLawful (view self.old) }
        requires core { core_of port < (view self.old).cores }
        requires asked { (r : Request) × ((view self.old).port port ≡ Asked r) }
        ensures lawful { IsLawful (view self.new) }
        ensures serves { (r : Request) → (view self.old).port port ≡ Asked r → Serves port r (view self.old) (view self.new) }
        ensures made { makes (Serve port) self.old self.new };

    /// Moves something on, if there is anything: where there are several things, the choice says
    /// which of them.
    fn step(&mut self, choice: u32) -> Moved
        requires lawful { IsLawful (view self.old) }
        ensures lawful { IsLawful (view self.new) }
        ensures steps { Steps result (view self.old) (view self.new) }
        ensures made { makes (Step choice result) self.old self.new };

    /// Takes the answer on a port, if it is there: the word of code, or what memory had before the
    /// access.
    fn take(&mut self, port: Port) -> Option<u32>
        requires lawful { IsLawful (view self.old) }
        requires core { core_of port < (view self.old).cores }
        requires served { IsServed ((view self.old).port port) }
        ensures lawful { IsLawful (view self.new) }
        ensures takes { Takes result port (view self.old) (view self.new) }
        ensures made { makes (Take port result) self.old self.new };

    /// Closes a port with its request. A request that was done stays done.
    fn withdraw(&mut self, port: Port) -> Withdrawal
        requires lawful { IsLawful (view self.old) }
        requires core { core_of port < (view self.old).cores }
        requires opened { IsOpen ((view self.old).port port) }
        ensures lawful { IsLawful (view self.new) }
        ensures withdraws { Withdraws result port (view self.old) (view self.new) }
        ensures made { makes (Withdraw port result) self.old self.new };

    /// The words of memory and the history, where no request is open.
    fn settle(self) -> (Words, History)
        requires lawful { IsLawful (view self) }
        requires rest { (q : Port) → core_of q < (view self).cores → IsAtRest ((view self).port q) }
        ensures settles { Settles (view self) result.0 result.1.items };
}
