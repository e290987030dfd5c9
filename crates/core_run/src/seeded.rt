//! Cores whose turns a seed draws: each cycle is that of one of the cores that run on.
ghost use Rattle.std.specs.Prelude.{◌≡◌, ◌<◌, ◌≤◌, ℕ, [], List, Some, true, vec_len, vec_capacity, slice_get, length, MatchOption};
ghost use Rattle.timetable.specs.declared.End.{End};
ghost use Rattle.rand_pcg.specs.Pcg.{pcg32};
ghost use Rattle.right_run.specs.Seeded.{drawn, AreSeeded};
ghost use Rattle.right_run.specs.Turns.{cycles_of};
ghost use Rattle.mem_port.specs.Memory.{IsLawful, IsFresh, Keeps, Settles};
ghost use Rattle.mem_port.specs.ServiceHistory.{ServiceHistory, IsFirstHistory};
ghost use Rattle.core_run.specs.Outcomes.{AreFirst, IsRun};
ghost use Rattle.core_run.specs.Serial.{IsServedRun};
ghost use Rattle.core_run.specs.Seeded.{runs_on, running, AreSlots, HasPlayed, HaveHad, LeadsSeeded};
ghost use Rattle.core_run.specs.declared.serial.CoreSlot.{CoreSlot};

use crate::serial::{gather, play};
use crate::{CoreSlot, TimedEngine};
use mem_port::MemoryCore;
use rand_core::SeedableRng;
use rand_core::utils::NextWord;
use rand_pcg::Pcg32;
use std::alloc::Global;
use timetable::{CoreEnd, Outcome};

/// How many cores run on.
fn count_running<E>(slots: &[CoreSlot<E>]) -> usize
    ensures count { result ≡ length (running slots.now) }
{
    let mut count = 0;
    for index in 0..slots.len() {
        if slots[index].end.is_none() {
            count += 1;
        }
    }
    count
}

/// The core at a position, from 0, of those that run on, in rising order.
fn running_at<E>(slots: &[CoreSlot<E>], position: usize) -> usize
    requires within { position < length (running slots.now) }
    ensures core { slice_get (running slots.now) position ≡ Some result }
{
    let mut before = 0;
    for core in 0..slots.len() {
        if slots[core].end.is_none() {
            if before == position {
                return core;
            }
            before += 1;
        }
    }
    unreachable!()
}

/// The core that the next word draws of those that run on, or none where all have ended.
fn draw<E>(slots: &[CoreSlot<E>], words: &mut Pcg32) -> Option<usize>
    ensures drawn { MatchOption result (running slots.now ≡ [])
        (λ core. (drawn (pcg32 words.old).0 (running slots.now) ≡ Some core) × (words.new ≡ (pcg32 words.old).1)) }
{
    let count = count_running(slots);
    if count == 0 {
        return None;
    }
    let position = words.next_word() as usize % count;
    Some(running_at(slots, position))
}

/// The turn of one of the cores that run on.
fn play_at<E: TimedEngine, M: MemoryCore>(
    memory: &mut M,
    slots: &mut Vec<CoreSlot<E>>,
    core: usize,
    choice: u32,
    budget: u32,
)
    requires lawful { IsLawful (M.view memory.old) }
    requires cores { vec_len slots.old ≡ (M.view memory.old).cores }
    requires slots { AreSlots E.view budget (M.view memory.old) slots.old.items }
    requires runs_on { runs_on (slice_get slots.old.items core) ≡ true }
    ensures lawful { IsLawful (M.view memory.new) }
    ensures cores { vec_len slots.new ≡ vec_len slots.old }
    ensures played { HasPlayed E.view E.timed M.view M.makes budget core choice memory.old memory.new slots.old.items slots.new.items }
{
    let slot = &mut slots[core];
    play(memory, slot, choice, budget);
}

/// All turns, until every core has ended. The words are those of the generator that the next number
/// seeds, two for each turn: the first draws its core, the second is its choice.
fn play_seeded<E: TimedEngine, M: MemoryCore>(
    memory: &mut M,
    slots: &mut Vec<CoreSlot<E>>,
    seed: u32,
    budget: u32,
)
    requires lawful { IsLawful (M.view memory.old) }
    requires cores { vec_len slots.old ≡ (M.view memory.old).cores }
    requires slots { AreSlots E.view budget (M.view memory.old) slots.old.items }
    requires no_cycle { (core : ℕ) (s : CoreSlot E) → slice_get slots.old.items core ≡ Some s → s.cycles ≡ 0 }
    ensures lawful { IsLawful (M.view memory.new) }
    ensures cores { vec_len slots.new ≡ vec_len slots.old }
    ensures kept { Keeps (M.view memory.old) (M.view memory.new) }
    ensures ended { running slots.new.items ≡ [] }
    ensures had { (turns : List ℕ) × HaveHad E.view E.timed M.view M.makes budget seed turns memory.old memory.new slots.old.items slots.new.items }
{
    let mut words = Pcg32::seed_from_u64(u64::from(seed) + 1);
    while let Some(core) = draw(slots, &mut words) {
        let choice = words.next_word();
        play_at(memory, slots, core, choice, budget);
    }
}

/// Runs all cores to their ends, in the turns that a seed draws. It takes no memory: the list of ends
/// comes with room for them.
pub fn run_seeded<E: TimedEngine, M: MemoryCore>(
    alloc: Global,
    mut memory: M,
    mut slots: Vec<CoreSlot<E>>,
    mut ends: Vec<CoreEnd>,
    seed: u32,
    budget: u32,
) -> Outcome
    requires budget { 1 ≤ budget }
    requires fresh { IsFresh (M.view memory).image (M.view memory).cores budget (M.view memory).caches (M.view memory) }
    requires cores { vec_len slots ≡ (M.view memory).cores }
    requires slots { AreFirst E.view (M.view memory).image (M.view memory).cores budget slots.items }
    requires room { vec_len slots ≤ vec_capacity ends }
    requires empty { ends.items ≡ [] }
    ensures run { IsRun (M.view memory).image (M.view memory).cores budget (M.view memory).caches result }
    ensures made { (last : M) × (LeadsSeeded M.makes seed (cycles_of result.cores) memory last × Settles (M.view last) result.words result.items) }
    ensures served { ((core : ℕ) (s : CoreSlot E) → slice_get slots.items core ≡ Some s → (history : ServiceHistory) → IsFirstHistory history → E.timed history s.engine)
        → (histories : ℕ → ServiceHistory) × IsServedRun E.view E.rows E.timed (M.view memory) (AreSeeded seed (cycles_of result.cores)) result histories }
{
    play_seeded(&mut memory, &mut slots, seed, budget);
    gather(alloc, slots, &mut ends);
    let (words, history) = memory.settle();
    Outcome {
        cores: ends,
        words,
        history,
    }
}
