//! The rows of verdicts.
ghost use Rattle.std.specs.Prelude.{◌≡◌, ◌+◌, ◌≤◌, ◌++◌, length, codes};
ghost use Rattle.kmp.specs.Replay.{found_text, agrees_row, difference_row};

use access_log::Found;
use kmp_base::Row;
use replayer::Difference;
use timetable::End;

/// Appends an address and the word there.
fn add_word(row: &mut Row, addr: u32, value: u32)
    requires { length row.old ≤ 108 }
    ensures bytes { row.new ≡ row.old ++ found_text (Found.Word addr value) }
    ensures len { length row.new ≤ length row.old + 20 }
{
    row.hex8(addr);
    row.text(":");
    row.hex8(value);
}

/// Appends what stands in a field.
#[tactic(auto, using(std_laws::proofs::NumberLaws::length_decimal_64))]
fn add_found(row: &mut Row, found: Found)
    requires { length row.old ≤ 108 }
    ensures bytes { row.new ≡ row.old ++ found_text found }
    ensures len { length row.new ≤ length row.old + 20 }
{
    match found {
        Found::Number(n) => row.decimal(n),
        Found::Hex(word) => row.hex8(word),
        Found::Kind(kind) => row.text(kind.name()),
        Found::Letter(letter) => row.text(letter.name()),
        Found::End(Some(stop)) => row.text(stop.name()),
        Found::End(None) => row.text(End::Spent.name()),
        Found::Word(addr, value) => add_word(row, addr, value),
        Found::Set(caches) => row.hex4(caches),
        Found::Nothing => row.text("-"),
    }
}

/// The row of a report that is right.
pub fn agrees() -> Row
    ensures row { result ≡ agrees_row }
{
    let mut row = Row::new();
    row.text("replay agrees\n");
    row
}

/// The row of a report's first difference.
#[tactic(auto, using(std_laws::proofs::NumberLaws::length_decimal_64))]
pub fn differs(difference: &Difference) -> Row
    ensures row { result ≡ difference_row difference.now }
{
    let mut row = Row::new();
    row.text("replay differs line ");
    row.decimal(u64::from(difference.line));
    row.text(" field ");
    row.text(difference.field.name());
    row.text(" kept ");
    add_found(&mut row, difference.kept);
    row.text(" found ");
    add_found(&mut row, difference.found);
    row.text("\n");
    row
}
