//! Rows of a timetable, as much of them as the rows to come need.
ghost use Rattle.std.specs.Prelude.{◌≡◌, ◌+◌, ◌^◌, ◌<◌, ◌≤◌, ◌∷◌, [], List, ℕ};
ghost use Rattle.pipe_regs.specs.Slots.{IsProperWhere};
ghost use Rattle.timetable.specs.Tables.{Timed, timed, ready_for};
ghost use Rattle.mips_isa.specs.Steps.{kind_at};
ghost use Rattle.timetable.specs.AtOnce.{answer_at, row_at_once};
ghost use Rattle.row_check.specs.Clocks.{AreOf, AreWithin, IsRowWithin};

use mips_isa::{Instr, effects};
use pipe_regs::is_load;
use timetable::TimeRow;
use timetable::recurrence::{due_d, due_e, due_f, no_row};

/// What the rows of a timetable leave for those behind them, in cycles.
#[derive(Clone, Copy)]
pub struct Clocks {
    /// The last row; before the first one all its clocks are 0.
    pub prior: TimeRow,
    /// When each register is ready: in the clock behind M of its last writer, where that was a load, else in clock 0.
    pub ready: [u32; 32],
}

impl Clocks {
    /// Before the first row.
    pub fn new() -> Clocks
        ensures of { AreOf result [] }
        ensures within { AreWithin 0 result }
    {
        Clocks {
            prior: no_row(),
            ready: [0; 32],
        }
    }

    /// Goes on by the row of an instruction; `None` stands for a place that isn't on the code.
    pub fn push(&mut self, instr: Option<Instr>, row: &TimeRow)
        requires proper { IsProperWhere instr }
        requires row { IsRowWithin 1000000 row.now }
        ensures of { (past : List Timed) → AreOf self.old past → AreOf self.new (timed instr row.now ∷ past) }
        ensures within { (bound : ℕ) → AreWithin bound self.old → IsRowWithin bound row.now → AreWithin bound self.new }
    {
        self.prior = *row;
        if let Some(register) = instr.and_then(effects::writes) {
            self.ready[register as usize] = if is_load(instr) { row.m + 1 } else { 0 };
        }
    }

    /// When all that an instruction reads is ready.
    pub(crate) fn ready_for(&self, instr: Option<Instr>) -> u32
        requires proper { IsProperWhere instr }
        ensures ready { (past : List Timed) → AreOf self.now past → result ≡ ready_for past instr }
        ensures within { (bound : ℕ) → AreWithin bound self.now → result ≤ bound + 1 }
    {
        let Some(instr) = instr else {
            return 0;
        };
        let rs = self.ready[effects::rs(instr) as usize];
        let rt = self.ready[effects::rt(instr) as usize];
        let expected = self.ready[effects::expected(instr) as usize];
        rs.max(rt.max(expected))
    }

    /// The row of an instruction that is executed, where its word and its answer come at once.
    pub fn row_at_once(&self, instr: Option<Instr>) -> TimeRow
        requires proper { IsProperWhere instr }
        requires within { AreWithin 1000000 self.now }
        ensures row { (past : List Timed) → AreOf self.now past → result ≡ row_at_once past instr }
        ensures within { (bound : ℕ) → AreWithin bound self.now → IsRowWithin (bound + 4) result }
    {
        let i = self.prior.f + 1;
        let f = due_f(&self.prior, i);
        let d = due_d(&self.prior, self.ready_for(instr), f);
        let e = due_e(&self.prior, d);
        let m = e + 1;
        TimeRow {
            i,
            f,
            d,
            e,
            a: answer_at(instr, e),
            m,
            w: Some(m + 1),
        }
    }
}

/// The clock of an instruction's answer that comes at once; `None` where it makes no access.
pub(crate) fn answer_at(instr: Option<Instr>, e: u32) -> Option<u32>
    requires proper { IsProperWhere instr }
    requires fits { e + 1 < 2 ^ 32 }
    ensures answer { result ≡ answer_at (kind_at instr) e }
{
    instr.and_then(effects::kind).map(|_| e + 1)
}
