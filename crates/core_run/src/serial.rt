//! Cores that take turns on one memory: in each round every core has one cycle, by rising number.
ghost use Rattle.std.specs.Prelude.{◌≡◌, ◌<◌, ◌≤◌, ◌+◌, ◌^◌, ℕ, [], List, Some, None, is_some, vec_len, vec_capacity, slice_get, length};
ghost use Rattle.std.specs.List.{All};
ghost use Rattle.timetable.specs.declared.CoreEnd.{CoreEnd};
ghost use Rattle.timetable.specs.declared.End.{End};
ghost use Rattle.timetable.specs.Outcome.{IsState};
ghost use Rattle.mem_port.specs.Calls.{Call, Lead};
ghost use Rattle.mem_port.specs.Memory.{IsLawful, IsFresh, IsAtOnce, Keeps, Settles};
ghost use Rattle.mem_port.specs.ServiceHistory.{ServiceHistory, IsFirstHistory};
ghost use Rattle.mem_port.specs.Side.{LeavesOthers, ServesCore, side_of};
ghost use Rattle.core_run.specs.Lanes.{IsClosed};
ghost use Rattle.core_run.specs.Running.{AreOfCycle, IsServedAt};
ghost use Rattle.core_run.specs.Outcomes.{AreFirst, IsRun, IsEndOf};
ghost use Rattle.core_run.specs.Serial.{IsSlotOf, SlotAt, AreAt, Leads, Receives, AreInRounds, AreServed, IsServedRun};
ghost use Rattle.core_run.specs.declared.serial.CoreSlot.{CoreSlot};

use crate::lane::run_cycle;
use crate::{Lane, TimedEngine};
use mem_port::MemoryCore;
use std::alloc::Global;
use timetable::{CoreEnd, End, Outcome};

/// A core that is run: its engine, which of its requests are open, and how far it has come.
#[derive(Drop)]
pub struct CoreSlot<E> {
    pub engine: E,
    pub lane: Lane,
    /// The cycles that the core has had.
    pub cycles: u32,
    /// None while it runs on.
    pub end: Option<End>,
}

impl<E> CoreSlot<E> {
    /// The slot of a core before its first cycle.
    pub fn new(engine: E, core: u32) -> CoreSlot<E>
        ensures engine { result.engine ≡ engine }
        ensures core { result.lane.core ≡ core }
        ensures closed { IsClosed result.lane }
        ensures no_end { result.end ≡ None }
        ensures no_cycle { result.cycles ≡ 0 }
    {
        CoreSlot {
            engine,
            lane: Lane::new(core),
            cycles: 0,
            end: None,
        }
    }
}

/// The turn of a core that runs on: its next cycle, with this choice, and its end, if that was the last
/// one.
pub fn play<E: TimedEngine, M: MemoryCore>(
    memory: &mut M,
    slot: &mut CoreSlot<E>,
    choice: u32,
    budget: u32,
)
    requires serves { ServesCore (M.view memory.old) slot.old.lane.core }
    requires slot { IsSlotOf slot.old.lane.core budget (M.view memory.old) (E.view slot.old.engine) slot.old.lane slot.old.end slot.old.cycles }
    requires no_end { slot.old.end ≡ None }
    ensures serves { ServesCore (M.view memory.new) slot.old.lane.core }
    ensures slot { IsSlotOf slot.old.lane.core budget (M.view memory.new) (E.view slot.new.engine) slot.new.lane slot.new.end slot.new.cycles }
    ensures cycles { slot.new.cycles ≡ slot.old.cycles + 1 }
    ensures others { LeavesOthers slot.old.lane.core (M.view memory.old) (M.view memory.new) }
    ensures made { (calls : List Call) × (AreOfCycle slot.old.lane.core choice (is_some slot.new.end) calls × Lead M.makes calls memory.old memory.new) }
    ensures served { (history : ServiceHistory)
        → IsServedAt E.view E.timed (side_of (M.view memory.old) slot.old.lane.core) slot.old.engine slot.old.lane slot.old.end slot.old.cycles history
        → (after : ServiceHistory) × (IsServedAt E.view E.timed (side_of (M.view memory.new) slot.new.lane.core) slot.new.engine slot.new.lane slot.new.end slot.new.cycles after
        × (IsAtOnce (M.view memory.old) → Receives slot.old.lane.core slot.new.cycles (M.view memory.old).history (M.view memory.new).history history after)) }
{
    let mut side = memory;
    slot.end = run_cycle(
        &mut slot.engine,
        &mut side,
        &mut slot.lane,
        choice,
        slot.cycles,
        budget,
    );
    slot.cycles += 1;
}

/// The turn of a core in a round, if it runs on.
fn play_if_on<E: TimedEngine, M: MemoryCore>(memory: &mut M, slot: &mut CoreSlot<E>, budget: u32)
    requires serves { ServesCore (M.view memory.old) slot.old.lane.core }
    requires at { (rounds : ℕ) × SlotAt slot.old.lane.core rounds budget (M.view memory.old) (E.view slot.old.engine) slot.old.lane slot.old.end slot.old.cycles }
    ensures serves { ServesCore (M.view memory.new) slot.old.lane.core }
    ensures at { (rounds : ℕ) → SlotAt slot.old.lane.core rounds budget (M.view memory.old) (E.view slot.old.engine) slot.old.lane slot.old.end slot.old.cycles
        → SlotAt slot.old.lane.core (rounds + 1) budget (M.view memory.new) (E.view slot.new.engine) slot.new.lane slot.new.end slot.new.cycles }
    ensures others { LeavesOthers slot.old.lane.core (M.view memory.old) (M.view memory.new) }
    ensures made { Leads M.makes memory.old memory.new }
    ensures ended { (end : End) → slot.old.end ≡ Some end → memory.new ≡ memory.old }
    ensures served { (rounds : ℕ) (history : ServiceHistory)
        → SlotAt slot.old.lane.core rounds budget (M.view memory.old) (E.view slot.old.engine) slot.old.lane slot.old.end slot.old.cycles
        → IsServedAt E.view E.timed (side_of (M.view memory.old) slot.old.lane.core) slot.old.engine slot.old.lane slot.old.end slot.old.cycles history
        → (after : ServiceHistory) × (IsServedAt E.view E.timed (side_of (M.view memory.new) slot.new.lane.core) slot.new.engine slot.new.lane slot.new.end slot.new.cycles after
        × (IsAtOnce (M.view memory.old) → Receives slot.old.lane.core (rounds + 1) (M.view memory.old).history (M.view memory.new).history history after)) }
{
    if slot.end.is_some() {
        return;
    }
    play(memory, slot, 0, budget);
}

/// One round: the turn of each core, by rising number.
fn play_round<E: TimedEngine, M: MemoryCore>(
    memory: &mut M,
    slots: &mut Vec<CoreSlot<E>>,
    budget: u32,
)
    requires lawful { IsLawful (M.view memory.old) }
    requires cores { vec_len slots.old ≡ (M.view memory.old).cores }
    requires slots { (rounds : ℕ) × AreAt E.view rounds budget (M.view memory.old) slots.old.items }
    ensures lawful { IsLawful (M.view memory.new) }
    ensures cores { vec_len slots.new ≡ vec_len slots.old }
    ensures slots { (rounds : ℕ)
        → AreAt E.view rounds budget (M.view memory.old) slots.old.items
        → AreAt E.view (rounds + 1) budget (M.view memory.new) slots.new.items }
    ensures kept { Keeps (M.view memory.old) (M.view memory.new) }
    ensures made { Leads M.makes memory.old memory.new }
    ensures served { (rounds : ℕ) (histories : ℕ → ServiceHistory)
        → AreAt E.view rounds budget (M.view memory.old) slots.old.items
        → AreServed E.view E.timed (AreInRounds rounds 0) (M.view memory.old) slots.old.items histories
        → (after : ℕ → ServiceHistory) × AreServed E.view E.timed (AreInRounds (rounds + 1) 0) (M.view memory.new) slots.new.items after }
{
    for index in 0..slots.len() {
        let slot = &mut slots[index];
        play_if_on(memory, slot, budget);
    }
}

/// As many rounds as the budget has cycles.
fn play_all<E: TimedEngine, M: MemoryCore>(
    memory: &mut M,
    slots: &mut Vec<CoreSlot<E>>,
    budget: u32,
)
    requires lawful { IsLawful (M.view memory.old) }
    requires cores { vec_len slots.old ≡ (M.view memory.old).cores }
    requires slots { AreAt E.view 0 budget (M.view memory.old) slots.old.items }
    ensures lawful { IsLawful (M.view memory.new) }
    ensures cores { vec_len slots.new ≡ vec_len slots.old }
    ensures slots { AreAt E.view budget budget (M.view memory.new) slots.new.items }
    ensures kept { Keeps (M.view memory.old) (M.view memory.new) }
    ensures made { Leads M.makes memory.old memory.new }
    ensures served { (histories : ℕ → ServiceHistory)
        → AreServed E.view E.timed (AreInRounds 0 0) (M.view memory.old) slots.old.items histories
        → (after : ℕ → ServiceHistory) × AreServed E.view E.timed (AreInRounds budget 0) (M.view memory.new) slots.new.items after }
{
    for _ in 0..budget {
        play_round(memory, slots, budget);
    }
}

/// A list of words has words of 32 bits, by its type.
fn words_fit(words: &[u32])
    ensures { All (λ word. word < 2 ^ 32) words.now }
{}

/// What the slot of a core that has ended tells of its end. It takes no memory.
pub fn end_of<E: TimedEngine>(alloc: Global, slot: CoreSlot<E>) -> CoreEnd
    requires over { (end : End) × (slot.end ≡ Some end) }
    ensures end { IsEndOf (E.view slot.engine) (E.rows slot.engine) slot.end slot.cycles result }
    ensures state { IsState result.state }
{
    let Some(end) = slot.end else { unreachable!() };
    let state = slot.engine.state();
    words_fit(&state.regs);
    CoreEnd {
        end,
        cycles: slot.cycles,
        retired: slot.engine.executed(),
        state,
        rows: slot.engine.into_rows(alloc),
    }
}

/// The ends of cores that have ended, in order.
pub fn gather<E: TimedEngine>(alloc: Global, slots: Vec<CoreSlot<E>>, ends: &mut Vec<CoreEnd>)
    requires over { (core : ℕ) (s : CoreSlot E) → slice_get slots.items core ≡ Some s → (end : End) × (s.end ≡ Some end) }
    requires room { vec_len slots ≤ vec_capacity ends.old }
    requires empty { ends.old.items ≡ [] }
    ensures count { length ends.new.items ≡ vec_len slots }
    ensures ends { (core : ℕ) (ended : CoreEnd) → slice_get ends.new.items core ≡ Some ended
        → (s : CoreSlot E) × ((slice_get slots.items core ≡ Some s) × IsEndOf (E.view s.engine) (E.rows s.engine) s.end s.cycles ended) }
    ensures states { All (λ ended. IsState ended.state) ends.new.items }
{
    for slot in slots {
        ends.push_reserved(end_of(alloc, slot));
    }
}

/// Runs all cores to their ends, in rounds. It takes no memory: the list of ends comes with room for
/// them.
pub fn run_slots<E: TimedEngine, M: MemoryCore>(
    alloc: Global,
    mut memory: M,
    mut slots: Vec<CoreSlot<E>>,
    mut ends: Vec<CoreEnd>,
    budget: u32,
) -> Outcome
    requires budget { 1 ≤ budget }
    requires fresh { IsFresh (M.view memory).image (M.view memory).cores budget (M.view memory).caches (M.view memory) }
    requires cores { vec_len slots ≡ (M.view memory).cores }
    requires slots { AreFirst E.view (M.view memory).image (M.view memory).cores budget slots.items }
    requires room { vec_len slots ≤ vec_capacity ends }
    requires empty { ends.items ≡ [] }
    ensures run { IsRun (M.view memory).image (M.view memory).cores budget (M.view memory).caches result }
    ensures made { (last : M) × (Leads M.makes memory last × Settles (M.view last) result.words result.items) }
    ensures served { ((core : ℕ) (s : CoreSlot E) → slice_get slots.items core ≡ Some s → (history : ServiceHistory) → IsFirstHistory history → E.timed history s.engine)
        → (histories : ℕ → ServiceHistory) × IsServedRun E.view E.rows E.timed (M.view memory) (AreInRounds budget 0) result histories }
{
    play_all(&mut memory, &mut slots, budget);
    gather(alloc, slots, &mut ends);
    let (words, history) = memory.settle();
    Outcome {
        cores: ends,
        words,
        history,
    }
}
