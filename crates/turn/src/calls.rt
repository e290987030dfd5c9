//! The calls of a core's caller. Each waits for the turn, makes one call of the memory, and lets the
//! turn go.
ghost use Rattle.std.specs.Prelude.{◌≡◌, ◌≤◌, ◌+◌, ◌⊎◌, ℕ};
ghost use Rattle.access_log.specs.declared.request.Request.{Request};
ghost use Rattle.mem_port.specs.declared.port.Port.{Port};
ghost use Rattle.mem_port.specs.declared.port.PortState.TheVariants.{Free, Asked, Answered};
ghost use Rattle.mem_port.specs.Calls.{Ask, Serve, Step, Take, Withdraw};
ghost use Rattle.mem_port.specs.Ports.{core_of, MayAsk, IsWaiting};
ghost use Rattle.mem_port.specs.Side.{port_phase, Served, Holds, SideAsks, SideServes, SideSteps, SideTakes, SideWithdraws};
ghost use Rattle.turn.specs.Passes.{IsOf, HasMade, first_view, port_of, side};

use crate::steps::{IdleStep, MovedStep, NoneTaken, NoneWithdrawn, Quiet};
use crate::{Pass, Turn};
use access_log::Request;
use mem_port::{MemoryCore, Moved, Port, Withdrawal};
use std::sync::Wait;

impl<M: MemoryCore> Turn<M> {
    /// Asks a request on a port of the pass's own core.
    pub fn ask<R: Wait>(&self, rt: &R, pass: &mut Pass<M>, port: Port, request: Request)
        requires turn { IsOf self.now pass.old }
        requires core { core_of port ≡ pass.old.core }
        requires free { (port_of pass.old port).state ≡ Free }
        requires left { 1 ≤ (port_of pass.old port).asks_left }
        requires proper { MayAsk (first_view self.now).image port request }
        ensures made { HasMade self.now (Ask port request) pass.old pass.new }
        ensures asks { SideAsks port request (side self.now pass.old) (side self.now pass.new) }
    {
        self.lock.acquire(rt, &mut pass.seat, pass.core);
        let counted = pass.seat.slot_mut(&self.lock.table.shared, 0);
        counted.ask(port, request);
        self.lock.release::<Quiet>(&mut pass.seat);
    }

    /// Serves a request that was asked.
    pub fn serve<R: Wait>(&self, rt: &R, pass: &mut Pass<M>, port: Port)
        requires turn { IsOf self.now pass.old }
        requires core { core_of port ≡ pass.old.core }
        requires asked { (r : Request) × ((port_of pass.old port).state ≡ Asked r) }
        ensures made { HasMade self.now (Serve port) pass.old pass.new }
        ensures serves { (r : Request) → (port_of pass.old port).state ≡ Asked r → SideServes port r (side self.now pass.old) (side self.now pass.new) }
    {
        self.lock.acquire(rt, &mut pass.seat, pass.core);
        let counted = pass.seat.slot_mut(&self.lock.table.shared, 0);
        counted.serve(port);
        self.lock.release::<Quiet>(&mut pass.seat);
    }

    /// Makes one step of the memory with a choice, if there is anything to be moved. It helps a request
    /// only where that waits, and one that it doesn't help has its answer.
    pub fn step<R: Wait>(&self, rt: &R, pass: &mut Pass<M>, choice: u32) -> Moved
        requires turn { IsOf self.now pass.old }
        ensures made { HasMade self.now (Step choice result) pass.old pass.new }
        ensures steps { SideSteps result pass.old.core (side self.now pass.old) (side self.now pass.new) }
        ensures helped { (q : Port) → core_of q ≡ pass.old.core → ((port_of pass.new q).helping ≡ (port_of pass.old q).helping)
            ⊎ (IsWaiting (port_of pass.old q).state × ((port_of pass.new q).helping ≡ (port_of pass.old q).helping + 1)) }
        ensures unhelped { (q : Port) (r : Request) → core_of q ≡ pass.old.core → port_phase (port_of pass.old q).state ≡ Served r
            → (port_of pass.new q).helping ≡ (port_of pass.old q).helping → (word : ℕ) × ((port_of pass.new q).state ≡ Answered r word) }
    {
        self.lock.acquire(rt, &mut pass.seat, pass.core);
        let counted = pass.seat.slot_mut(&self.lock.table.shared, 0);
        if let Moved::Idle = counted.step(pass.core, choice) {
            self.lock.release::<IdleStep>(&mut pass.seat);
            return Moved::Idle;
        }
        self.lock.release::<MovedStep>(&mut pass.seat);
        Moved::Moved
    }

    /// Takes an answer, where it has come.
    pub fn take<R: Wait>(&self, rt: &R, pass: &mut Pass<M>, port: Port) -> Option<u32>
        requires turn { IsOf self.now pass.old }
        requires core { core_of port ≡ pass.old.core }
        requires served { (r : Request) × (port_phase (port_of pass.old port).state ≡ Served r) }
        ensures made { HasMade self.now (Take port result) pass.old pass.new }
        ensures takes { (r : Request) → port_phase (port_of pass.old port).state ≡ Served r → SideTakes result port r (side self.now pass.old) (side self.now pass.new) }
    {
        self.lock.acquire(rt, &mut pass.seat, pass.core);
        let counted = pass.seat.slot_mut(&self.lock.table.shared, 0);
        let Some(word) = counted.take(port) else {
            self.lock.release::<NoneTaken>(&mut pass.seat);
            return None;
        };
        self.lock.release::<Quiet>(&mut pass.seat);
        Some(word)
    }

    /// Gives a request up.
    pub fn withdraw<R: Wait>(&self, rt: &R, pass: &mut Pass<M>, port: Port) -> Withdrawal
        requires turn { IsOf self.now pass.old }
        requires core { core_of port ≡ pass.old.core }
        requires opened { (r : Request) × Holds (port_phase (port_of pass.old port).state) r }
        ensures made { HasMade self.now (Withdraw port result) pass.old pass.new }
        ensures withdraws { (r : Request) → Holds (port_phase (port_of pass.old port).state) r → SideWithdraws result port r (side self.now pass.old) (side self.now pass.new) }
    {
        self.lock.acquire(rt, &mut pass.seat, pass.core);
        let counted = pass.seat.slot_mut(&self.lock.table.shared, 0);
        let Withdrawal::Answered(word) = counted.withdraw(port) else {
            self.lock.release::<NoneWithdrawn>(&mut pass.seat);
            return Withdrawal::Withdrawn;
        };
        self.lock.release::<Quiet>(&mut pass.seat);
        Withdrawal::Answered(word)
    }
}
