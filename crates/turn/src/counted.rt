//! A memory and what is counted of its calls.
ghost use Rattle.mem_port.specs.Memory.{IsLawful};
ghost use Rattle.mem_port.specs.Props.{IsLawful-prop};
ghost use Rattle.turn.specs.Numbers.{numbers, IsHelped, IsPaid};

use crate::tally::Tally;
use access_log::Request;
use mem_port::{MemoryCore, Moved, Port, Withdrawal};
use std::snapshot::Snapshot;

/// A lawful memory, and three kinds of numbers: how many requests were asked on each port, how many
/// steps for each core moved something, and how many of these were made while the last request on a
/// port of that core waited. No code reads them.
///
/// No call takes memory of the machine that it runs on.
#[derive(Drop)]
pub struct Counted<M: MemoryCore> {
    memory: M,
    tally: Tally<M>,
    pub ghost lawful: { IsLawful (M.view memory) } by { IsLawful-prop (M.view memory) },
    pub ghost helped: { IsHelped (M.view memory) (numbers M.view tally) },
    pub ghost paid: { IsPaid (M.view memory) (numbers M.view tally) },
}

impl<M: MemoryCore> Counted<M> {
    ghost use Rattle.std.specs.Prelude.{◌≡◌, ◌<◌, ◌≤◌, ℕ, []};
    ghost use Rattle.access_log.specs.declared.request.Request.{Request};
    ghost use Rattle.mem_port.specs.declared.port.Port.{Port};
    ghost use Rattle.mem_port.specs.declared.port.PortState.TheVariants.{Free, Asked};
    ghost use Rattle.mem_port.specs.Calls.{Ask, Serve, Step, Take, Withdraw};
    ghost use Rattle.mem_port.specs.Ports.{core_of, MayAsk, IsServed, IsOpen};
    ghost use Rattle.mem_port.specs.Memory.{IsLawful, Asks, Serves, Steps, Takes, Withdraws};
    ghost use Rattle.turn.specs.Numbers.{no_numbers};
    ghost use Rattle.turn.specs.Counting.{memory_of, seen, IsCounted};

    /// A memory before its first call, for so many cores. Nothing was counted yet.
    pub fn new(memory: M, cores: u32) -> Counted<M>
        requires lawful { IsLawful (M.view memory) }
        requires history { (M.view memory).history ≡ [] }
        requires ports { (q : Port) → (M.view memory).port q ≡ Free }
        requires cores { (M.view memory).cores ≡ cores }
        ensures memory { memory_of result ≡ memory }
        ensures numbers { (seen result).numbers ≡ no_numbers }
    {
        let _ = cores;
        Counted {
            memory,
            tally: Tally::Fresh,
        }
    }

    /// Puts a request on a free port.
    pub fn ask(&mut self, port: Port, request: Request)
        requires core { core_of port < (seen self.old).memory.cores }
        requires free { (seen self.old).memory.port port ≡ Free }
        requires left { 1 ≤ (seen self.old).memory.asks_left port }
        requires proper { MayAsk (seen self.old).memory.image port request }
        ensures asks { Asks port request (seen self.old).memory (seen self.new).memory }
        ensures counted { IsCounted (core_of port) (Ask port request) self.old self.new }
    {
        self.memory.ask(port, request);
        self.tally = Tally::Asked(Snapshot::of(&self.tally), port);
    }

    /// Begins to do the request on a port.
    pub fn serve(&mut self, port: Port)
        requires core { core_of port < (seen self.old).memory.cores }
        requires asked { (r : Request) × ((seen self.old).memory.port port ≡ Asked r) }
        ensures serves { (r : Request) → (seen self.old).memory.port port ≡ Asked r → Serves port r (seen self.old).memory (seen self.new).memory }
        ensures counted { IsCounted (core_of port) (Serve port) self.old self.new }
    {
        self.memory.serve(port);
        self.tally = Tally::Served(Snapshot::of(&self.tally), port);
    }

    /// Moves something on for a core, if there is anything.
    pub fn step(&mut self, core: u32, choice: u32) -> Moved
        requires core { core < (seen self.old).memory.cores }
        ensures steps { Steps result (seen self.old).memory (seen self.new).memory }
        ensures counted { IsCounted core (Step choice result) self.old self.new }
    {
        let before = Snapshot::of(&self.memory);
        match self.memory.step(choice) {
            Moved::Moved => {
                self.tally = Tally::Moved(Snapshot::of(&self.tally), before, core);
                Moved::Moved
            }
            Moved::Idle => Moved::Idle,
        }
    }

    /// Takes the answer on a port, if it is there.
    pub fn take(&mut self, port: Port) -> Option<u32>
        requires core { core_of port < (seen self.old).memory.cores }
        requires served { IsServed ((seen self.old).memory.port port) }
        ensures takes { Takes result port (seen self.old).memory (seen self.new).memory }
        ensures counted { IsCounted (core_of port) (Take port result) self.old self.new }
    {
        self.memory.take(port)
    }

    /// Closes a port with its request.
    pub fn withdraw(&mut self, port: Port) -> Withdrawal
        requires core { core_of port < (seen self.old).memory.cores }
        requires opened { IsOpen ((seen self.old).memory.port port) }
        ensures withdraws { Withdraws result port (seen self.old).memory (seen self.new).memory }
        ensures counted { IsCounted (core_of port) (Withdraw port result) self.old self.new }
    {
        self.memory.withdraw(port)
    }

    /// Hands the memory over as it stands.
    pub fn into_memory(self) -> M
        ensures memory { result ≡ memory_of self }
    {
        let Counted { memory, tally: _ } = self;
        memory
    }
}
