//! The first field of a timetable's row that differs from what is due.
ghost use Rattle.std.specs.Prelude.{◌≡◌, ◌+◌, ◌^◌, ◌<◌, ◌∷◌, [], List};
ghost use Rattle.mips_isa.specs.Steps.{kind_at};
ghost use Rattle.pipe_regs.specs.Slots.{IsProperWhere};
ghost use Rattle.timetable.specs.Tables.{Timed};
ghost use Rattle.row_check.specs.Judgments.{told, number, first_told};
ghost use Rattle.row_check.specs.Rows.{due_within, word_within, answer_within, limit_for};
ghost use Rattle.row_check.specs.Rows.{front_judged, back_judged, halt_judged, row_judged, stop_judged};
ghost use Rattle.row_check.specs.Clocks.{AreOf, AreWithin, IsRowWithin};

use crate::difference::{number, optional, refused};
use crate::{Clocks, Difference};
use access_log::Field;
use mips_isa::{Instr, effects};
use timetable::TimeRow;
use timetable::recurrence::{due_d, due_e, due_f, due_m};

/// A clock that differs.
fn clock(line: u32, field: Field, kept: u32, due: u32) -> Difference
    ensures { result ≡ told (number line field kept due) }
{
    number(line, field, u64::from(kept), u64::from(due))
}

/// The clock that is due of one that is kept, from the first one on.
fn due_within(bound: Option<u32>, first: u32, kept: u32) -> u32
    ensures due { result ≡ due_within bound first kept }
{
    match bound {
        None => first.max(kept),
        Some(bound) => first.max(kept.min(first.saturating_add(bound))),
    }
}

/// The clock in which a word is due, from the first one on, for one that is kept.
fn word_within(bound: Option<u32>, instr: Option<Instr>, first: u32, kept: u32) -> u32
    ensures due { result ≡ word_within bound instr first kept }
{
    match instr {
        None => first,
        Some(_) => due_within(bound, first, kept),
    }
}

/// The clock in which an answer is due behind E, for one that is kept; `None` where no access is made.
fn answer_within(bound: Option<u32>, instr: Option<Instr>, e: u32, kept: Option<u32>) -> Option<u32>
    requires proper { IsProperWhere instr }
    requires fits { e + 1 < 2 ^ 32 }
    ensures due { result ≡ answer_within bound (kind_at instr) e kept }
{
    instr.and_then(effects::kind)?;
    match kept {
        None => Some(e + 1),
        Some(kept) => Some(due_within(bound, e + 1, kept)),
    }
}

/// The last cycle in which the instruction of a row may be done, where its core had so many; `None` where these aren't limited.
///
/// It is the core's limit but for the last of its rows, behind which none comes. Where an answer may come later than in the cycle
/// in which it is asked, its access may have been open at the end and found answered as it was withdrawn then; that counts as an
/// answer in the cycle that would come next.
pub fn limit_for(
    bound: Option<u32>,
    limit: Option<u32>,
    is_last: bool,
    row: &TimeRow,
) -> Option<u32>
    ensures limit { result ≡ limit_for bound limit is_last row.now }
{
    let limit = limit?;
    let is_next = row.a.is_some_and(|a| a > limit && a - limit == 1);
    if is_last && bound != Some(0) && is_next {
        row.a
    } else {
        Some(limit)
    }
}

/// The first field up to E that differs.
fn front_difference(
    line: u32,
    clocks: &Clocks,
    bound: Option<u32>,
    instr: Option<Instr>,
    row: &TimeRow,
) -> Option<Difference>
    requires proper { IsProperWhere instr }
    requires clocks { AreWithin 1000000 clocks.now }
    requires row { IsRowWithin 1000000 row.now }
    ensures first { (past : List Timed) → AreOf clocks.now past → result ≡ first_told (front_judged line bound past instr row.now) }
{
    let prior = &clocks.prior;
    let i = word_within(bound, instr, prior.f + 1, row.i);
    let f = due_f(prior, row.i);
    let d = due_d(prior, clocks.ready_for(instr), row.f);
    let e = due_e(prior, row.d);
    if row.i != i {
        Some(clock(line, Field::I, row.i, i))
    } else if row.f != f {
        Some(clock(line, Field::F, row.f, f))
    } else if row.d != d {
        Some(clock(line, Field::D, row.d, d))
    } else if row.e != e {
        Some(clock(line, Field::E, row.e, e))
    } else {
        None
    }
}

/// The first field behind E that differs in the row of an instruction that is executed, within a limit where there is one.
fn back_difference(
    line: u32,
    bound: Option<u32>,
    limit: Option<u32>,
    instr: Option<Instr>,
    row: &TimeRow,
) -> Option<Difference>
    requires proper { IsProperWhere instr }
    requires row { IsRowWithin 1000000 row.now }
    ensures first { result ≡ first_told (back_judged line bound limit instr row.now) }
{
    let a = answer_within(bound, instr, row.e, row.a);
    let m = due_m(row.e, row.a);
    let w = Some(row.m + 1);
    if row.a != a {
        Some(optional(line, Field::A, row.a, a))
    } else if limit.is_some_and(|limit| limit < m) {
        Some(refused(line, Field::M, u64::from(row.m)))
    } else if row.m != m {
        Some(clock(line, Field::M, row.m, m))
    } else if row.w != w {
        Some(optional(line, Field::W, row.w, w))
    } else {
        None
    }
}

/// The first field behind E that differs in the row of an instruction that stops.
fn halt_difference(line: u32, row: &TimeRow) -> Option<Difference>
    requires row { IsRowWithin 1000000 row.now }
    ensures first { result ≡ first_told (halt_judged line row.now) }
{
    let m = due_m(row.e, None);
    if row.a.is_some() {
        Some(optional(line, Field::A, row.a, None))
    } else if row.m != m {
        Some(clock(line, Field::M, row.m, m))
    } else if row.w.is_some() {
        Some(optional(line, Field::W, row.w, None))
    } else {
        None
    }
}

/// The first field that differs in the row of an instruction that is executed, behind the rows of such clocks.
///
/// Words and answers come at most `bound` cycles later than at the soonest, and at any time where it is `None`; 0 is a memory that
/// answers at once. Nothing is due for an M beyond the row's limit, where it has one ([`limit_for`]).
pub fn row_difference(
    line: u32,
    clocks: &Clocks,
    bound: Option<u32>,
    limit: Option<u32>,
    instr: Option<Instr>,
    row: &TimeRow,
) -> Option<Difference>
    requires proper { IsProperWhere instr }
    requires clocks { AreWithin 1000000 clocks.now }
    requires row { IsRowWithin 1000000 row.now }
    ensures first { (past : List Timed) → AreOf clocks.now past → result ≡ first_told (row_judged line bound limit past instr row.now) }
{
    match front_difference(line, clocks, bound, instr, row) {
        Some(difference) => Some(difference),
        None => back_difference(line, bound, limit, instr, row),
    }
}

/// The first field that differs in the row of an instruction that stops, behind the rows of such clocks, where its word comes
/// within such a bound.
pub fn stop_difference(
    line: u32,
    clocks: &Clocks,
    bound: Option<u32>,
    instr: Option<Instr>,
    row: &TimeRow,
) -> Option<Difference>
    requires proper { IsProperWhere instr }
    requires clocks { AreWithin 1000000 clocks.now }
    requires row { IsRowWithin 1000000 row.now }
    ensures first { (past : List Timed) → AreOf clocks.now past → result ≡ first_told (stop_judged line bound past instr row.now) }
{
    match front_difference(line, clocks, bound, instr, row) {
        Some(difference) => Some(difference),
        None => halt_difference(line, row),
    }
}
