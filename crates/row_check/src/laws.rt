//! Laws of rows. Each is the clause of a function that does nothing.
ghost use Rattle.std.specs.Prelude.{◌≡◌, ◌+◌, ◌++◌, Option, List, ℕ, length};
ghost use Rattle.std.specs.List.{AllByRecursion};
ghost use Rattle.mips_isa.specs.declared.Instr.{Instr};
ghost use Rattle.timetable.specs.declared.rows.TimeRow.{TimeRow};
ghost use Rattle.timetable.specs.Tables.{Timed, past_of};
ghost use Rattle.row_check.specs.Rows.{rows_judged, KeepsLimit};
ghost use Rattle.row_check.specs.Worked.{WorkedRowsAreTold, WorkedRowsAreBounded};

/// Each row takes a line: rows behind others are judged in the lines behind theirs, by what these leave. It is said of rows whose
/// limit isn't another where they are the last.
pub fn rows_take_a_line_each()
    ensures law { (line : ℕ) (bound limit : Option ℕ) (past : List Timed) (instrs others : List (Option Instr)) (stop : Option Instr) (rows later : List TimeRow)
        → length rows ≡ length instrs
        → AllByRecursion (KeepsLimit bound limit) rows
        → rows_judged line bound limit past (instrs ++ others) stop (rows ++ later)
        ≡ rows_judged line bound limit past instrs stop rows ++ rows_judged (line + length rows) bound limit (past_of past instrs rows) others stop later }
{}

/// Of rows that were worked out apart from the code, those that are due are judged so, and of others the first difference is told.
pub fn worked_rows_are_told()
    ensures law { WorkedRowsAreTold }
{}

/// The same where words and answers may come late, within a bound or at any time.
pub fn worked_rows_are_bounded()
    ensures law { WorkedRowsAreBounded }
{}
