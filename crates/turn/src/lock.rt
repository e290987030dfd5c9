//! A lock over a memory whose calls are counted.
ghost use Rattle.std.specs.Prelude.{◌≡◌, ◌<◌, ℕ, [], length, IfOk};
ghost use Rattle.mem_port.specs.Memory.{Keeps};
ghost use Rattle.turn.specs.Views.{CoresFit};
ghost use Rattle.turn.specs.Rule.{Releases, times, left_of, right_of, both_of, opening_view};
ghost use Rattle.turn.specs.Holding.{IsResting, HasTurn, MayRelease};

use crate::steps::{Acquire, Counting, JoinAll, Release, SplitOwn, TurnRule, Watched};
use crate::views::PassView;
use atomic_table::{Refused, Seat, Table};
use std::alloc::{AllocError, Global};
use std::snapshot::Snapshot;
use std::sync::Wait;
use std::thread;

/// The table: one word, which is 0 where the lock is free and else the holder's core and 1, and one
/// slot with the memory.
#[derive(Drop)]
pub struct Lock<S: Watched> {
    pub table: Table<S, PassView<S>, Snapshot<S>, TurnRule, Global>,
    ghost sized: { (table.shared.table_id.words ≡ 1) × (table.shared.table_id.slots ≡ 1) },
}

impl<S: Watched> Lock<S> {
    /// A free lock, and a seat that speaks for all cores.
    pub fn new(alloc: Global, memory: S) -> Result<(Lock<S>, Seat<S, PassView<S>>), AllocError>
        ensures key { IfOk result (λ t. t.0.table.shared.key.value ≡ memory) }
        ensures lock { IfOk result (λ t. t.1.table_id ≡ t.0.table.shared.table_id) }
        ensures view { IfOk result (λ t. t.1.me ≡ (opening_view S.seen memory, [])) }
    {
        let about = Snapshot::of(&memory);
        let mut slots = Vec::with_capacity(alloc, 1)?;
        slots.push_reserved(memory);
        match Table::new(alloc, &[0], slots, &about) {
            Ok((table, seat)) => Ok((Lock { table }, seat)),
            Err(Refused { slots: _ }) => Err(AllocError),
        }
    }

    /// Waits for the lock, and takes the memory.
    pub fn acquire<R: Wait>(&self, rt: &R, seat: &mut Seat<S, PassView<S>>, core: u32)
        requires lock { seat.old.table_id ≡ self.now.table.shared.table_id }
        requires rests { IsResting core seat.old.me }
        ensures lock { seat.new.table_id ≡ seat.old.table_id }
        ensures held { HasTurn S.seen seat.old.me seat.new.me }
    {
        let number = u64::from(core) + 1;
        for _ in rt.forever() {
            let found = self
                .table
                .shared
                .compare_exchange::<Acquire>(seat, 0, 0, number);
            if found == 0 {
                return;
            }
            thread::yield_now();
        }
        unreachable!()
    }

    /// Puts the memory back, and keeps what it shows of the seat's own core.
    pub fn release<C: Counting>(&self, seat: &mut Seat<S, PassView<S>>)
        requires lock { seat.old.table_id ≡ self.now.table.shared.table_id }
        requires may { MayRelease S.seen C.event seat.old.me }
        ensures lock { seat.new.table_id ≡ seat.old.table_id }
        ensures rests { Releases S.seen C.event seat.old.me seat.new.me }
    {
        self.table.shared.store::<Release<C>>(seat, 0, 0);
    }

    /// Gives the seat's own core to a new seat.
    pub fn split(&self, seat: &mut Seat<S, PassView<S>>) -> Seat<S, PassView<S>>
        requires lock { seat.old.table_id ≡ self.now.table.shared.table_id }
        requires rests { (core : ℕ) × IsResting core seat.old.me }
        ensures lock { seat.new.table_id ≡ seat.old.table_id }
        ensures left { seat.new.me ≡ (left_of seat.old.me.0, []) }
        ensures given { result.me ≡ (right_of seat.old.me.0, []) }
        ensures same { result.table_id ≡ seat.old.table_id }
    {
        self.table.shared.split_seat::<SplitOwn>(seat)
    }

    /// Gives the cores of another seat to this one.
    pub fn join(&self, seat: &mut Seat<S, PassView<S>>, other: Seat<S, PassView<S>>)
        requires lock { seat.old.table_id ≡ self.now.table.shared.table_id }
        requires other_lock { other.table_id ≡ self.now.table.shared.table_id }
        requires rests { (core : ℕ) × IsResting core seat.old.me }
        requires other_rests { (core : ℕ) × IsResting core other.me }
        ensures lock { seat.new.table_id ≡ seat.old.table_id }
        ensures both { seat.new.me ≡ (both_of seat.old.me.0 other.me.0, []) }
    {
        self.table.shared.join_seat::<JoinAll>(seat, other);
    }

    /// Gives the memory back to who speaks for every core.
    pub fn close(self, seat: Seat<S, PassView<S>>) -> S
        requires lock { seat.table_id ≡ self.table.shared.table_id }
        requires rests { (core : ℕ) × IsResting core seat.me }
        requires all { (c : ℕ) → c < (S.seen self.table.shared.key.value).memory.cores → 0 < times c seat.me.0.cores }
        ensures kept { Keeps (S.seen self.table.shared.key.value).memory (S.seen result).memory }
        ensures cores { CoresFit (S.seen result) seat.me.0.cores }
    {
        let Lock { table } = self;
        let mut closed = table.close_with(seat);
        let memory = closed.take(0);
        closed.free();
        memory
    }
}
