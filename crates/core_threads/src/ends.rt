//! The passes of cores that have ended are joined, and their ends gathered.
ghost use Rattle.std.specs.Prelude.{◌≡◌, ◌≤◌, ◌<◌, ◌++◌, ℕ, [], Some, vec_len, vec_capacity, slice_get, length, map, MatchOption};
ghost use Rattle.std.specs.List.{All};
ghost use Rattle.timetable.specs.declared.CoreEnd.{CoreEnd};
ghost use Rattle.timetable.specs.Outcome.{IsState};
ghost use Rattle.core_run.specs.Outcomes.{IsEndOf};
ghost use Rattle.turn.specs.Views.{open_of};
ghost use Rattle.turn.specs.Passes.{IsOf, all_cores, own};
ghost use Rattle.core_threads.specs.Workers.{IsAlone, cores_of};

use crate::work::Worker;
use core_run::{TimedEngine, end_of};
use mem_port::MemoryCore;
use std::alloc::Global;
use timetable::CoreEnd;
use turn::{Pass, Turn};

/// A pass that speaks also for the cores of another one, if there is one before it.
fn join<M: MemoryCore>(turn: &Turn<M>, before: Option<Pass<M>>, pass: Pass<M>) -> Pass<M>
    requires before_turn { MatchOption before (Unit {0}) (λ p. IsOf turn.now p) }
    requires turn { IsOf turn.now pass }
    requires rest { open_of (own pass) ≡ 0 }
    ensures turn { IsOf turn.now result }
    ensures cores { all_cores result ≡ cores_of before ++ all_cores pass }
{
    let Some(mut all) = before else { return pass };
    turn.join_pass(&mut all, pass);
    all
}

/// One pass that speaks for the cores of all workers, and their ends, in order.
pub fn gather<E: TimedEngine, M: MemoryCore>(
    alloc: Global,
    turn: &Turn<M>,
    workers: Vec<Worker<E, M>>,
    ends: &mut Vec<CoreEnd>,
) -> Pass<M>
    requires alone { (core : ℕ) (w : _) → slice_get workers.items core ≡ Some w → IsAlone turn.now w }
    requires some { 0 < vec_len workers }
    requires room { vec_len workers ≤ vec_capacity ends.old }
    requires empty { ends.old.items ≡ [] }
    ensures turn { IsOf turn.now result }
    ensures cores { all_cores result ≡ map (λ w. own w.pass) workers.items }
    ensures count { length ends.new.items ≡ vec_len workers }
    ensures ends { (core : ℕ) (ended : CoreEnd) → slice_get ends.new.items core ≡ Some ended
        → (w : _) × ((slice_get workers.items core ≡ Some w)
        × IsEndOf (E.view w.slot.engine) (E.rows w.slot.engine) w.slot.end w.slot.cycles ended) }
    ensures states { All (λ ended. IsState ended.state) ends.new.items }
{
    let mut joined = None;
    for worker in workers {
        let Worker { slot, pass } = worker;
        joined = Some(join(turn, joined, pass));
        ends.push_reserved(end_of(alloc, slot));
    }
    let Some(pass) = joined else { unreachable!() };
    pass
}
