//! One core's whole run, and those of all cores, each on a thread of its own.
ghost use Rattle.std.specs.Prelude.{◌≡◌, ◌≤◌, ◌<◌, ℕ, Some, None, length, slice_index_or};
ghost use Rattle.timetable.specs.declared.End.{End};
ghost use Rattle.mem_port.specs.ServiceHistory.{ServiceHistory};
ghost use Rattle.mem_port.specs.Side.{KeepsSide};
ghost use Rattle.core_run.specs.Running.{IsOn, IsOver, IsServedAt};
ghost use Rattle.core_threads.specs.Runs.{HasRun};
ghost use Rattle.core_threads.specs.Workers.{IsFreshFor, IsReady, HasWorked};

use crate::{Gate, TurnSide};
use core_run::{CoreSide, CoreSlot, run_cycle};
use mem_port::{CoreEngine, MemoryCore};
use std::sync::Wait;
use std::thread;
use std::thread::Threads;
use turn::{Pass, Turn};

/// Runs one core from its first cycle to its end. Before each cycle the gate is called with the
/// cycle's number, from 1, which is also the choice of the cycle's step.
pub fn run_core<E: CoreEngine, S: CoreSide, G: Gate>(
    slot: &mut CoreSlot<E>,
    side: &mut S,
    gate: &G,
    budget: u32,
)
    requires serves { S.serves side.old slot.old.lane.core }
    requires on { IsOn budget (S.view side.old slot.old.lane.core) (E.view slot.old.engine) slot.old.lane 0 }
    ensures serves { S.serves side.new slot.old.lane.core }
    ensures core { slot.new.lane.core ≡ slot.old.lane.core }
    ensures over { (end : End) × ((slot.new.end ≡ Some end)
        × IsOver budget (S.view side.new slot.old.lane.core) (E.view slot.new.engine) slot.new.lane end slot.new.cycles) }
    ensures kept { KeepsSide (S.view side.old slot.old.lane.core) (S.view side.new slot.old.lane.core) }
    ensures others { S.leaves_others slot.old.lane.core side.old side.new }
    ensures made { HasRun S.makes slot.old.lane.core slot.new.cycles side.old side.new }
    ensures served { (history : ServiceHistory)
        → IsServedAt E.view E.timed (S.view side.old slot.old.lane.core) slot.old.engine slot.old.lane None 0 history
        → (after : ServiceHistory)
        × IsServedAt E.view E.timed (S.view side.new slot.old.lane.core) slot.new.engine slot.new.lane slot.new.end slot.new.cycles after }
{
    for done in 0..budget {
        let cycle = done + 1;
        gate.at(slot.lane.core, cycle);
        slot.end = run_cycle(&mut slot.engine, side, &mut slot.lane, cycle, done, budget);
        slot.cycles = cycle;
        if slot.end.is_some() {
            return;
        }
    }
    unreachable!()
}

/// A core with its pass.
#[derive(Drop)]
pub struct Worker<E, M: MemoryCore> {
    pub slot: CoreSlot<E>,
    pub pass: Pass<M>,
}

/// The work of a core's thread.
fn work<R: Wait, E: CoreEngine, M: MemoryCore, G: Gate>(
    rt: &R,
    turn: &Turn<M>,
    gate: &G,
    budget: u32,
    worker: &mut Worker<E, M>,
)
    requires budget { 1 ≤ budget }
    requires fresh { IsFreshFor turn.now budget }
    requires ready { (core : ℕ) × IsReady E.view turn.now budget core worker.old }
    ensures worked { (core : ℕ) → IsReady E.view turn.now budget core worker.old
        → HasWorked E.view E.timed turn.now budget core worker.old worker.new }
{
    let mut side = TurnSide {
        rt,
        turn,
        pass: &mut worker.pass,
    };
    run_core(&mut worker.slot, &mut side, gate, budget);
}

/// The work of all cores, each on a thread of its own. It takes no memory, and no thread is refused.
pub fn work_all<
    R: Threads + Wait + Sync,
    E: CoreEngine + Send,
    M: MemoryCore + Send,
    G: Gate + Sync,
>(rt: &R, turn: &Turn<M>, gate: &G, budget: u32, workers: &mut [Worker<E, M>])
    requires budget { 1 ≤ budget }
    requires fresh { IsFreshFor turn.now budget }
    requires ready { (core : ℕ) (d : _) → core < length workers.old
        → IsReady E.view turn.now budget core (slice_index_or workers.old core d) }
    ensures count { length workers.new ≡ length workers.old }
    ensures worked { (core : ℕ) (d : _) → core < length workers.old
        → HasWorked E.view E.timed turn.now budget core (slice_index_or workers.old core d) (slice_index_or workers.new core d) }
{
    let threads = workers.len().max(1);
    thread::for_each_mut(
        rt,
        workers,
        threads,
        &|_, worker| { work(rt, turn, gate, budget, worker) },
    );
}
