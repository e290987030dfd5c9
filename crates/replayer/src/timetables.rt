//! The timetables of cores.
ghost use Rattle.std.specs.Prelude.{◌≡◌, ◌+◌, ◌*◌, ◌^◌, ◌<◌, ◌≤◌, [], length, slice_get, sum_by, Some, IfSome};
ghost use Rattle.std.specs.List.{AllByRecursion};
ghost use Rattle.pipe_regs.specs.Slots.{IsProperWhere};
ghost use Rattle.access_log.specs.Items.{entries};
ghost use Rattle.access_log.specs.Replay.{own};
ghost use Rattle.timetable.specs.AtOnce.{first_m, past_at_once};
ghost use Rattle.report_rows.specs.Bounds.{AreTimes};
ghost use Rattle.report_rows.specs.Ends.{EndValue, end_value};
ghost use Rattle.report_text.specs.Form.{IsReport};
ghost use Rattle.row_check.specs.Judgments.{first_told};
ghost use Rattle.row_check.specs.Clocks.{AreOf, AreWithin};
ghost use Rattle.row_check.specs.Rows.{rows_judged};
ghost use Rattle.right_run.specs.Stages.{executed_by};
ghost use Rattle.replayer.specs.Timetables.{bound_on, limit_of, AreAtOnce, AreKnown, EachKnown, timetable_judged, timetables_judged};

use crate::course::{Course, instr_on};
use access_log::Item;
use image_file::Image;
use kmp_base::{MachineKind, Setup};
use mips_isa::Instr;
use report_text::Report;
use row_check::{Clocks, Difference, limit_for, row_difference, stop_difference};
use timetable::{CoreEnd, End, TimeRow};

/// How many cycles later than at once a word or an answer may come; none where there is no bound.
pub(crate) fn bound_on(machine: MachineKind) -> Option<u32>
    ensures { result ≡ bound_on machine }
{
    match machine {
        MachineKind::Plain | MachineKind::Pipe => Some(0),
        MachineKind::Full => None,
    }
}

/// The clocks behind the instructions of a core, where their words and answers come at once.
fn clocks_at_once(course: &mut Course<'_>) -> Clocks
    requires few { length course.old ≤ 100002 }
    ensures of { AreOf result (past_at_once [] course.old) }
    ensures within { AreWithin 500000 result }
{
    let mut clocks = Clocks::new();
    while let Some(instr) = course.next_instr() {
        let row = clocks.row_at_once(instr);
        clocks.push(instr, &row);
    }
    clocks
}

/// The cycle in which an instruction behind those of a core is done, where nothing is waited for. The core is walked where the
/// clocks aren't known.
pub(crate) fn done_behind(
    clocks: &Option<Clocks>,
    course: &mut Course<'_>,
    instr: Option<Instr>,
) -> u32
    requires few { length course.old ≤ 100002 }
    requires proper { IsProperWhere instr }
    requires known { IfSome clocks.now (AreAtOnce course.old) }
    ensures value { result ≡ first_m (past_at_once [] course.old) instr }
{
    match clocks {
        Some(clocks) => clocks.row_at_once(instr).m,
        None => clocks_at_once(course).row_at_once(instr).m,
    }
}

/// What the rows of a timetable tell.
#[derive(Clone, Copy)]
pub(crate) struct Judged {
    /// The first field that differs.
    pub told: Option<Difference>,
    /// The clocks behind the instructions of the core, where these are all that have a row, and none differs.
    pub clocks: Option<Clocks>,
}

/// Judges rows from a line on: those of the instructions of a core, and that of its stop.
fn judge_rows(
    first_line: u32,
    bound: Option<u32>,
    limit: Option<u32>,
    course: &mut Course<'_>,
    stop: Option<Instr>,
    rows: &[TimeRow],
) -> Judged
    requires lines { first_line + length rows.now < 2 ^ 32 }
    requires proper { IsProperWhere stop }
    requires times { AllByRecursion AreTimes rows.now }
    ensures told { result.told ≡ first_told (rows_judged first_line bound limit [] course.old stop rows.now) }
    ensures clocks { AreKnown bound result.clocks course.old }
{
    let mut clocks = Clocks::new();
    let end_line = first_line + rows.len() as u32;
    let mut line = first_line;
    for row in rows {
        let Some(instr) = course.next_instr() else {
            return Judged {
                told: stop_difference(line, &clocks, bound, stop, row),
                clocks: None,
            };
        };
        let limit = limit_for(bound, limit, line + 1 == end_line, row);
        if let Some(difference) = row_difference(line, &clocks, bound, limit, instr, row) {
            return Judged {
                told: Some(difference),
                clocks: None,
            };
        }
        clocks.push(instr, row);
        line += 1;
    }
    let clocks = match course.next_instr() {
        None => Some(clocks),
        Some(_) => None,
    };
    Judged { told: None, clocks }
}

/// The last cycle in which an instruction of a core may be done.
fn limit_of(budget: u32, end: End) -> Option<u32>
    ensures { result ≡ limit_of budget end }
{
    match end {
        End::Stopped(_) => None,
        End::Spent => Some(budget),
    }
}

/// Judges the timetable of a core.
fn judge_timetable(
    line: u32,
    setup: &Setup,
    image: &Image,
    items: &[Item],
    core: u32,
    kept: &CoreEnd,
) -> Judged
    requires lines { line + length kept.now.rows.rows < 2 ^ 32 }
    requires times { AllByRecursion AreTimes kept.now.rows.rows }
    ensures told { result.told ≡ first_told (timetable_judged line setup.now image.now core (own (entries items.now) core) (end_value kept.now)) }
    ensures clocks { AreKnown (bound_on setup.now.machine) result.clocks (executed_by image.now core setup.now.cores (own (entries items.now) core) kept.now.retired) }
{
    let mut course = Course::new(image, items, core, setup.cores, kept.retired);
    let stop = instr_on(image, kept.state.dpc);
    let bound = bound_on(setup.machine);
    let limit = limit_of(setup.budget, kept.end);
    let rows = kept.rows.as_slice();
    judge_rows(line, bound, limit, &mut course, stop, rows)
}

/// What the timetables of the cores tell, at most eight.
#[derive(Clone, Copy)]
pub(crate) struct Tables {
    /// The first field that differs.
    pub told: Option<Difference>,
    /// The clocks of each core, where they are known.
    pub clocks: [Option<Clocks>; 8],
}

/// Judges the timetables of the cores, from a line on, up to the first that differs.
pub(crate) fn judge_timetables(report: &Report, first_line: u32) -> Tables
    requires form { IsReport report.now }
    requires lines { first_line + sum_by (λ ended. length ended.rows) report.now.cores < 2 ^ 32 }
    ensures told { result.told ≡ first_told (timetables_judged first_line report.now.setup report.now.image (entries report.now.items) 0 report.now.cores) }
    ensures clocks { EachKnown report.now result.clocks }
{
    let mut clocks = [None; 8];
    let mut line = first_line;
    for core in 0..report.setup.cores {
        let kept = &report.cores[core as usize];
        let items = report.history.items();
        let judged = judge_timetable(line, &report.setup, &report.image, items, core, kept);
        if let Some(difference) = judged.told {
            return Tables {
                told: Some(difference),
                clocks,
            };
        }
        clocks[core as usize] = judged.clocks;
        line += kept.rows.len();
    }
    Tables { told: None, clocks }
}
