//! The rows of a summary.
ghost use Rattle.std.specs.Prelude.{◌≡◌, ◌≤◌, length, map};
ghost use Rattle.report_rows.specs.Ends.{end_value};
ghost use Rattle.report_summary.specs.Summary.{trial_row, machine_row, count_row, sum_row, ends_row};
ghost use Rattle.kmp_base.specs.Rows.{row_text};

use kmp_base::{Row, Setup};
use timetable::CoreEnd;

/// The row of the seed and of the number of blocks.
#[tactic(auto, using(std_laws::proofs::NumberLaws::length_decimal_64))]
pub fn trial(seed: u32, size: u32) -> Row
    ensures row { result ≡ row_text (trial_row seed size) }
{
    let mut row = Row::new();
    row.text("trial seed ");
    row.decimal(u64::from(seed));
    row.text(" size ");
    row.decimal(u64::from(size));
    row.text("\n");
    row
}

/// The row of the machine and of its cores.
#[tactic(auto, using(std_laws::proofs::NumberLaws::length_decimal_64))]
pub fn machine(setup: &Setup) -> Row
    ensures row { result ≡ row_text (machine_row setup.now) }
{
    let mut row = Row::new();
    row.text("machine ");
    row.text(setup.machine.name());
    row.text(" cores ");
    row.decimal(u64::from(setup.cores));
    row.text("\n");
    row
}

/// The row of a count.
#[tactic(auto, using(std_laws::proofs::NumberLaws::length_decimal_64))]
pub fn count(name: &str, count: u64) -> Row
    requires short { length name.now ≤ 20 }
    ensures row { result ≡ row_text (count_row name.now count) }
{
    let mut row = Row::new();
    row.text(name);
    row.text(" ");
    row.decimal(count);
    row.text("\n");
    row
}

/// The row of the sum of the words.
pub fn sum(sum: u32) -> Row
    ensures row { result ≡ row_text (sum_row sum) }
{
    let mut row = Row::new();
    row.text("sum ");
    row.hex8(sum);
    row.text("\n");
    row
}

/// The row of the cores' ends.
pub fn ends(cores: &[CoreEnd]) -> Row
    requires few { length cores.now ≤ 8 }
    ensures row { result ≡ row_text (ends_row (map end_value cores.now)) }
{
    let mut row = Row::new();
    row.text("ends");
    for core in cores {
        row.text(" ");
        row.text(core.end.name());
    }
    row.text("\n");
    row
}
