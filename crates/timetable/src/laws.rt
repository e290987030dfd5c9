//! A law of timetables. It is the clause of a function that does nothing.
ghost use Rattle.std.specs.Prelude.{◌≡◌, Option, Some, List};
ghost use Rattle.mips_isa.specs.declared.Instr.{Instr};
ghost use Rattle.timetable.specs.declared.rows.TimeRow.{TimeRow};
ghost use Rattle.timetable.specs.Tables.{Timed, IsTable, past_of};
ghost use Rattle.timetable.specs.AtOnce.{past_at_once};

/// Where words and answers come at once, rows follow from their instructions.
pub fn rows_at_once_follow()
    ensures law { (past : List Timed) (instrs : List (Option Instr)) (rows : List TimeRow) → IsTable (Some 0) past instrs rows
        → past_of past instrs rows ≡ past_at_once past instrs }
{}
