//! What the ends of cores are judged by, and the row of an end.
ghost use Rattle.std.specs.Prelude.{◌≡◌, ◌+◌, ◌-◌, ◌^◌, ◌<◌, ◌≤◌, ◌==◌, length};
ghost use Rattle.access_log.specs.Items.{entries};
ghost use Rattle.access_log.specs.Replay.{own};
ghost use Rattle.right_run.specs.Stages.{executed_by};
ghost use Rattle.timetable.specs.AtOnce.{first_m, past_at_once};
ghost use Rattle.report_rows.specs.Ends.{end_value};
ghost use Rattle.report_text.specs.Counts.{at_entry};
ghost use Rattle.row_check.specs.Judgments.{first_told};
ghost use Rattle.replayer.specs.Timetables.{bound_on, AreKnown};
ghost use Rattle.replayer.specs.Cores.{plain_timing, stop_rows, timing_on, may_be_beyond, due_end, may_be_spent, due_cycles, end_judged};

use crate::Difference;
use crate::course::{Course, instr_on};
use crate::timetables::{bound_on, done_behind};
use access_log::{Core, Field, Item};
use image_file::Image;
use kmp_base::{MachineKind, Setup};
use mips_isa::Next;
use right_run::plain_cycles;
use row_check::Clocks;
use row_check::difference::{end, number, optional, refused, word};
use timetable::{CoreEnd, End};

/// What the end of a core is judged by.
#[derive(Clone, Copy)]
pub(crate) struct Timing {
    /// The cycles that it used.
    pub used: u32,
    /// The cycle in which what comes next is done at the latest; none where nothing tells it.
    pub done: Option<u32>,
    /// The cycle of its stop, where one is told.
    pub stopped: Option<u32>,
    /// How many rows its timetable has.
    pub rows: u32,
}

/// Whether an item is an access of a core.
fn is_own(item: &Item, core: u32) -> bool
    ensures { result ≡ at_entry (λ entry. entry.core == core) item.now }
{
    match item {
        Item::Done(entry) => entry.core == core,
        Item::Bus(_) => false,
    }
}

/// How many accesses a core made.
#[tactic(auto, using(crate::proofs::CoreLemmas::accesses_counted))]
fn accesses(items: &[Item], core: u32) -> u32
    requires { length items.now < 2 ^ 31 }
    ensures value { result ≡ length (own (entries items.now) core) }
    ensures few { result < 2 ^ 31 }
{
    items.iter().filter(|item| is_own(item, core)).count() as u32
}

/// Of an unpipelined core that used so many cycles.
fn plain_timing(used: u32, next: &Next) -> Timing
    requires { used < 2 ^ 32 - 2 }
    ensures { result ≡ plain_timing used next.now }
{
    Timing {
        used,
        done: Some(used + plain_cycles(next)),
        stopped: Some(used + 1),
        rows: 0,
    }
}

/// How many rows a timetable has for the stop of its core.
fn stop_rows(end: End) -> u32
    ensures rows { result ≡ stop_rows end }
    ensures few { result ≤ 1 }
{
    match end {
        End::Stopped(_) => 1,
        End::Spent => 0,
    }
}

/// By the machine: of the core with a number that stands there, where the clocks behind its instructions may be known.
pub(crate) fn timing_on(
    setup: &Setup,
    image: &Image,
    items: &[Item],
    core: u32,
    kept: &CoreEnd,
    clocks: &Option<Clocks>,
    there: &Core,
    next: &Next,
) -> Timing
    requires items { length items.now < 2 ^ 31 }
    requires known { AreKnown (bound_on setup.now.machine) clocks.now (executed_by image.now core setup.now.cores (own (entries items.now) core) there.now.executed) }
    requires executed { there.now.executed ≤ 100002 }
    ensures { result ≡ timing_on setup.now.machine image.now core setup.now.cores (own (entries items.now) core) (end_value kept.now) there.now next.now }
{
    match setup.machine {
        MachineKind::Plain => plain_timing(there.executed + accesses(items, core), next),
        MachineKind::Pipe | MachineKind::Full => {
            let done = match (bound_on(setup.machine), kept.end) {
                (Some(0), End::Spent) => {
                    let mut course = Course::new(image, items, core, setup.cores, there.executed);
                    let instr = instr_on(image, there.state.dpc);
                    Some(done_behind(clocks, &mut course, instr))
                }
                _ => None,
            };
            Timing {
                used: 0,
                done,
                stopped: kept.rows.last().map(|row| row.m),
                rows: there.executed + stop_rows(kept.end),
            }
        }
    }
}

/// Whether what comes next may be done only beyond the budget.
fn may_be_beyond(budget: u32, done: Option<u32>) -> bool
    ensures { result ≡ may_be_beyond budget done }
{
    match done {
        None => true,
        Some(done) => budget < done,
    }
}

/// The end that is due, by the cycle in which what comes next is done.
fn due_end(budget: u32, done: Option<u32>, kept: End, next: &Next) -> End
    ensures { result ≡ due_end budget done kept next.now }
{
    match (kept, next) {
        (_, Next::Goes(_) | Next::Asks(_)) => End::Spent,
        (End::Spent, Next::Stops(_)) if may_be_beyond(budget, done) => End::Spent,
        (_, Next::Stops(stop)) => End::Stopped(*stop),
    }
}

/// Whether a core that is told to be spent may be.
fn may_be_spent(budget: u32, timing: &Timing, kept: End) -> bool
    ensures { result ≡ may_be_spent budget timing.now kept }
{
    match kept {
        End::Stopped(_) => true,
        End::Spent => timing.used <= budget && may_be_beyond(budget, timing.done),
    }
}

/// The cycles that are due.
fn due_cycles(budget: u32, stopped: Option<u32>, kept: End) -> Option<u32>
    ensures { result ≡ due_cycles budget stopped kept }
{
    match kept {
        End::Stopped(_) => stopped,
        End::Spent => Some(budget),
    }
}

/// The first field that differs in the row of a core's end, where it executed as many instructions as are kept.
pub(crate) fn end_difference(
    line: u32,
    budget: u32,
    kept: &CoreEnd,
    timing: &Timing,
    there: &Core,
    next: &Next,
) -> Option<Difference>
    requires retired { kept.now.retired ≡ there.now.executed }
    ensures { result ≡ first_told (end_judged line budget (end_value kept.now) timing.now there.now next.now) }
{
    let due = due_end(budget, timing.done, kept.end, next);
    let cycles = Some(kept.cycles);
    let cycles_due = due_cycles(budget, timing.stopped, kept.end);
    let rows = kept.rows.len();
    if kept.end != due {
        Some(end(line, kept.end, due))
    } else if !may_be_spent(budget, timing, kept.end) {
        Some(refused(line, Field::Retired, u64::from(kept.retired)))
    } else if cycles != cycles_due {
        Some(optional(line, Field::Cycles, cycles, cycles_due))
    } else if rows != timing.rows {
        Some(number(line, Field::Rows, u64::from(rows), u64::from(timing.rows)))
    } else if kept.state.pc != there.state.pc {
        Some(word(line, Field::Pc, kept.state.pc, there.state.pc))
    } else if kept.state.dpc != there.state.dpc {
        Some(word(line, Field::Dpc, kept.state.dpc, there.state.dpc))
    } else {
        None
    }
}
