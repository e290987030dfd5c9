//! The rows of cores: where each ended, and its registers.
ghost use Rattle.std.specs.Prelude.{◌≡◌, ◌+◌, ◌*◌, ◌^◌, ◌<◌, ◌≤◌, ◌-◌, ◌++◌, Some, length, slice_get};
ghost use Rattle.mips_isa.specs.Steps.{next_of};
ghost use Rattle.image_file.specs.Value.{memory_bytes};
ghost use Rattle.access_log.specs.declared.Core.{Core};
ghost use Rattle.access_log.specs.Items.{entries};
ghost use Rattle.access_log.specs.Replay.{own, with_core};
ghost use Rattle.report_rows.specs.Ends.{EndValue, end_value};
ghost use Rattle.report_text.specs.Form.{IsReport};
ghost use Rattle.row_check.specs.Judgments.{first_told};
ghost use Rattle.replayer.specs.Lists.{registers_judged};
ghost use Rattle.right_run.specs.Stages.{executed_by};
ghost use Rattle.replayer.specs.Timetables.{bound_on, AreKnown, EachKnown};
ghost use Rattle.replayer.specs.Cores.{end_judged, core_judged, cores_judged, core_to};

use crate::Difference;
use crate::ends::{Timing, end_difference, timing_on};
use access_log::{Core, Field, Item};
use image_file::Image;
use kmp_base::Setup;
use mips_isa::{CoreState, Next, steps};
use report_text::Report;
use row_check::Clocks;
use row_check::difference::{number, word};
use seq_machine::Machine;
use timetable::CoreEnd;

/// The first register that differs, in four rows from a line on.
fn registers_difference(line: u32, kept: &CoreState, due: &CoreState) -> Option<Difference>
    requires { line < 2 ^ 32 - 4 }
    ensures { result ≡ first_told (registers_judged line kept.now.regs due.now.regs) }
{
    for i in 0..32 {
        if kept.regs[i] != due.regs[i] {
            return Some(word(
                line + i as u32 / 8,
                Field::Register,
                kept.regs[i],
                due.regs[i],
            ));
        }
    }
    None
}

/// The first field that differs in the five rows of a core, where it executed as many instructions as are kept.
fn rows_difference(
    line: u32,
    budget: u32,
    kept: &CoreEnd,
    timing: &Timing,
    there: &Core,
    next: &Next,
) -> Option<Difference>
    requires line { line < 2 ^ 32 - 5 }
    requires retired { kept.now.retired ≡ there.now.executed }
    ensures { result ≡ first_told (end_judged line budget (end_value kept.now) timing.now there.now next.now
        ++ registers_judged (line + 1) kept.now.state.regs there.now.state.regs) }
{
    match end_difference(line, budget, kept, timing, there, next) {
        Some(difference) => Some(difference),
        None => registers_difference(line + 1, &kept.state, &there.state),
    }
}

/// What a core does next that runs the code of an image.
fn next_in(image: &Image, state: &CoreState) -> Next
    ensures { result ≡ next_of image.now.code (memory_bytes image.now) state.now }
{
    steps::next(&image.code, 8 * image.memory_lines, state)
}

/// The first field that differs in the five rows of a core that stands there.
fn core_there_difference(
    line: u32,
    setup: &Setup,
    image: &Image,
    items: &[Item],
    core: u32,
    kept: &CoreEnd,
    clocks: &Option<Clocks>,
    there: &Core,
) -> Option<Difference>
    requires line { line < 2 ^ 32 - 5 }
    requires items { length items.now < 2 ^ 31 }
    requires kept { kept.now.retired ≤ 100002 }
    requires known { AreKnown (bound_on setup.now.machine) clocks.now (executed_by image.now core setup.now.cores (own (entries items.now) core) kept.now.retired) }
    ensures { result ≡ first_told (core_judged line setup.now image.now core (own (entries items.now) core) (end_value kept.now) there.now) }
{
    if kept.retired != there.executed {
        let retired = u64::from(kept.retired);
        let executed = u64::from(there.executed);
        return Some(number(line, Field::Retired, retired, executed));
    }
    let next = next_in(image, &there.state);
    let timing = timing_on(setup, image, items, core, kept, clocks, there, &next);
    rows_difference(line, setup.budget, kept, &timing, there, &next)
}

/// Lets a core catch up to its end in a report, as far as it comes, and compares its rows with it.
fn core_difference(
    machine: &mut Machine,
    report: &Report,
    clocks: &[Option<Clocks>; 8],
    core: u32,
    line: u32,
) -> Option<Difference>
    requires core { core < length machine.old.cores }
    requires kept { core < length report.now.cores }
    requires form { IsReport report.now }
    requires items { length report.now.items < 2 ^ 31 }
    requires line { line < 2 ^ 32 - 5 }
    requires known { EachKnown report.now clocks.now }
    ensures first { (kept : EndValue) → (before : Core) → slice_get report.now.cores core ≡ Some kept → slice_get machine.old.cores core ≡ Some before
        → result ≡ first_told (core_judged line report.now.setup report.now.image core (own (entries report.now.items) core) kept (core_to machine.old kept.retired before)) }
    ensures moved { (after : Core) × (machine.new ≡ with_core machine.old core after) }
{
    let kept = &report.cores[core as usize];
    machine.catch_up(core, kept.retired);
    let there = Core {
        state: *machine.state_of(core),
        executed: machine.executed(core),
    };
    let items = report.history.items();
    core_there_difference(
        line,
        &report.setup,
        &report.image,
        items,
        core,
        kept,
        &clocks[core as usize],
        &there,
    )
}

/// The first field that differs in the rows of the cores. The machine has made the accesses; its cores catch up to their
/// ends one after another, up to the one that differs. The clocks behind the instructions of a core may be known.
pub(crate) fn cores_difference(
    machine: &mut Machine,
    report: &Report,
    clocks: &[Option<Clocks>; 8],
    first_line: u32,
) -> Option<Difference>
    requires form { IsReport report.now }
    requires known { EachKnown report.now clocks.now }
    requires cores { length machine.old.cores ≡ length report.now.cores }
    requires items { length report.now.items < 2 ^ 31 }
    requires line { first_line + 5 * length report.now.cores < 2 ^ 32 }
    ensures first { result ≡ first_told (cores_judged first_line report.now.setup report.now.image machine.old (entries report.now.items) 0 report.now.cores machine.old.cores) }
    ensures memory { machine.new.memory ≡ machine.old.memory }
{
    let mut line = first_line;
    for core in 0..report.setup.cores {
        if let Some(difference) = core_difference(machine, report, clocks, core, line) {
            return Some(difference);
        }
        line += 5;
    }
    None
}
