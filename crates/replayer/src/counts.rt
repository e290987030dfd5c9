//! The rows of counts.
ghost use Rattle.std.specs.Prelude.{◌≡◌, ◌^◌, ◌<◌, ◌-◌};
ghost use Rattle.row_check.specs.Judgments.{first_told};
ghost use Rattle.replayer.specs.Lists.{counts_judged};

use crate::Difference;
use access_log::Field;
use report_text::Counts;
use row_check::difference::number;

/// The first count that differs, one in a row from a line on.
pub(crate) fn counts_difference(line: u32, kept: &Counts, due: &Counts) -> Option<Difference>
    requires { line < 2 ^ 32 - 13 }
    ensures { result ≡ first_told (counts_judged line kept.now.values due.now.values) }
{
    for i in 0..13 {
        if kept.values[i] != due.values[i] {
            return Some(number(line + i as u32, Field::Count, kept.values[i], due.values[i]));
        }
    }
    None
}
