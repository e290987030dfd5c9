//! The clocks that are due, and the row that comes next, by the recurrence.
ghost use Rattle.std.specs.Prelude.{◌≡◌, ◌≤◌, ◌<◌, ◌+◌, ◌^◌, IfSome, is_some};
ghost use Rattle.mips_isa.specs.Steps.{kind_at};
ghost use Rattle.pipe_regs.specs.Slots.{IsProperWhere};
ghost use Rattle.timetable.specs.Recurrence.{no_row, due_f, due_d, due_e, due_m, last_of, is_executed, IsNextRow, AreSmall};

use crate::{Rows, TimeRow};
use mips_isa::{Instr, effects};

/// Before the first row all clocks are 0.
pub fn no_row() -> TimeRow
    ensures row { result ≡ no_row }
{
    TimeRow {
        i: 0,
        f: 0,
        d: 0,
        e: 0,
        a: None,
        m: 0,
        w: None,
    }
}

/// The F that is due behind a row, where the word is taken in `i`.
pub fn due_f(prior: &TimeRow, i: u32) -> u32
    ensures value { result ≡ due_f prior.now i }
{
    i.max(prior.d)
}

/// The D that is due behind a row, where the operands are ready in `ready`.
pub fn due_d(prior: &TimeRow, ready: u32, f: u32) -> u32
    requires fits { f + 1 < 2 ^ 32 }
    ensures value { result ≡ due_d prior.now ready f }
{
    (f + 1).max(prior.e.max(ready))
}

/// The E that is due behind a row.
pub fn due_e(prior: &TimeRow, d: u32) -> u32
    requires fits { d + 1 < 2 ^ 32 }
    ensures value { result ≡ due_e prior.now d }
{
    (d + 1).max(prior.m)
}

/// The M that is due, where an access is answered in `a` or none is made.
pub fn due_m(e: u32, a: Option<u32>) -> u32
    requires fits { e + 1 < 2 ^ 32 }
    ensures value { result ≡ due_m e a }
{
    (e + 1).max(a.unwrap_or(0))
}

/// Whether an instruction makes an access.
fn makes_access(instr: Option<Instr>) -> bool
    requires proper { IsProperWhere instr }
    ensures access { result ≡ is_some (kind_at instr) }
{
    instr.and_then(effects::kind).is_some()
}

/// Whether an instruction is executed, where its access is answered in a cycle or isn't.
#[tactic(auto, unfolding(crate::specs::Recurrence::is_executed, mips_isa::specs::Effects::kind_of))]
fn is_executed(instr: Option<Instr>, a: Option<u32>) -> bool
    requires proper { IsProperWhere instr }
    ensures executed { result ≡ is_executed instr a }
{
    match instr {
        None | Some(Instr::Halt) => false,
        Some(instr) => effects::kind(instr).is_none() || a.is_some(),
    }
}

/// The row behind the last of others, or the first one where there is none, for an instruction;
/// `None` stands for a place that isn't on the code.
///
/// `writer` is the greatest M of the loads that it reads from: of each register, other than register
/// 0, that it reads, the last earlier writer where that is a load or a compare and swap. `i` is the
/// cycle in which its word was taken; off the code it isn't looked at, since no word is waited for.
/// `a` is the cycle in which its access was answered; where it makes no access it isn't looked at,
/// and where it makes one and there is no answer, it stopped. The row of a stop has no W.
pub fn next_row(
    prior: &Rows,
    instr: Option<Instr>,
    writer: Option<u32>,
    i: u32,
    a: Option<u32>,
) -> TimeRow
    requires proper { IsProperWhere instr }
    requires last { AreSmall (last_of prior.now.rows) }
    requires writer { IfSome writer (λ m. m ≤ 1000000) }
    requires i { i ≤ 1000000 }
    requires a { IfSome a (λ a. a ≤ 1000000) }
    ensures row { IsNextRow (last_of prior.now.rows) instr writer i a result }
{
    let last = prior.last().unwrap_or(no_row());
    let i = if instr.is_some() { i } else { last.f + 1 };
    let ready = writer.map_or(0, |m| m + 1);
    let f = due_f(&last, i);
    let d = due_d(&last, ready, f);
    let e = due_e(&last, d);
    let is_done = is_executed(instr, a);
    let a = if makes_access(instr) { a } else { None };
    let m = due_m(e, a);
    let w = if is_done { Some(m + 1) } else { None };
    TimeRow {
        i,
        f,
        d,
        e,
        a,
        m,
        w,
    }
}
