//! How a turn is made, and how it ends.
ghost use Rattle.std.specs.Prelude.{◌≡◌, ℕ, ◌<◌, ◌≤◌, ◌*◌, ◌++◌, IsTrue, Some, slice_get, IfOk, vec_len};
ghost use Rattle.access_log.specs.Items.{own_items};
ghost use Rattle.mem_port.specs.declared.port.Port.{Port};
ghost use Rattle.mem_port.specs.Ports.{core_of, IsAtRest};
ghost use Rattle.mem_port.specs.Memory.{IsLawful, Keeps, steps_of_request};
ghost use Rattle.turn.specs.declared.views.CoreView.{CoreView};
ghost use Rattle.turn.specs.Numbers.{Numbers};
ghost use Rattle.turn.specs.Views.{CoresFit, counted, open_of, asks_of};
ghost use Rattle.turn.specs.Rule.{added, total};
ghost use Rattle.turn.specs.Passes.{IsNew, IsOf, IsFirst, SpeaksForAll, first_of, first_view, own, all_cores, counts};
ghost use Rattle.turn.specs.declared.pass.Pass.{Pass};

use crate::lock::Lock;
use crate::{Counted, Pass, Turn};
use mem_port::{MemoryCore, NoMemory};
use std::alloc::Global;

impl<M: MemoryCore> Turn<M> {
    /// The pass speaks for the other one's cores too, none of which has an open request.
    pub fn join_pass(&self, pass: &mut Pass<M>, other: Pass<M>)
        requires turn { IsOf self.now pass.old }
        requires other_turn { IsOf self.now other }
        requires rest { open_of (own other) ≡ 0 }
        ensures turn { IsOf self.now pass.new }
        ensures core { pass.new.core ≡ pass.old.core }
        ensures cores { all_cores pass.new ≡ all_cores pass.old ++ all_cores other }
        ensures counts { counts pass.new ≡ added (counts pass.old) (counts other) }
    {
        let Pass { core: _, seat } = other;
        self.lock.join(&mut pass.seat, seat);
    }

    /// Gives the memory back to who speaks for every core and has no open request.
    pub fn close(self, pass: Pass<M>) -> M
        requires turn { IsOf self pass }
        requires all { SpeaksForAll self pass }
        requires rest { open_of (own pass) ≡ 0 }
        ensures lawful { IsLawful (M.view result) }
        ensures kept { Keeps (first_view self) (M.view result) }
        ensures ports { (q : Port) → core_of q < (M.view result).cores → IsAtRest ((M.view result).port q) }
        ensures own { (i : ℕ) (v : CoreView) → slice_get (all_cores pass) i ≡ Some v → own_items (M.view result).history v.core ≡ v.entries }
        ensures paid { IsTrue (first_view self).tells_load → (i : ℕ) (v : CoreView) → slice_get (all_cores pass) i ≡ Some v
            → v.moved ≤ steps_of_request (first_view self) * total asks_of (all_cores pass) }
        ensures cores { (n : Numbers) × CoresFit (counted (M.view result) n) (all_cores pass) }
    {
        let Turn { lock } = self;
        let Pass { core: _, seat } = pass;
        lock.close(seat).into_memory()
    }
}

/// A turn over a memory before its first call, and a pass for each of its cores. It fails only for want
/// of memory, and then the memory is dropped.
pub fn make<M: MemoryCore>(
    alloc: Global,
    memory: M,
    cores: u32,
) -> Result<(Turn<M>, Vec<Pass<M>>), NoMemory>
    requires new { IsNew (M.view memory) }
    requires cores { (M.view memory).cores ≡ cores }
    requires some_cores { 0 < cores }
    ensures memory { IfOk result (λ t. first_of t.0 ≡ memory) }
    ensures count { IfOk result (λ t. vec_len t.1 ≡ cores) }
    ensures passes { IfOk result (λ t. (core : ℕ) (p : _) → slice_get t.1.items core ≡ Some p → IsFirst t.0 core p) }
{
    let mut passes = Vec::with_capacity(alloc, cores as usize)?;
    let (lock, mut seat) = Lock::new(alloc, Counted::new(memory, cores))?;
    let last = cores - 1;
    for core in 0..last {
        let seat = lock.split(&mut seat);
        passes.push_reserved(Pass { core, seat });
    }
    passes.push_reserved(Pass { core: last, seat });
    Ok((Turn { lock }, passes))
}
