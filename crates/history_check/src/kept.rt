//! What items keep in the fields of their rows.
ghost use Rattle.std.specs.Prelude.{◌≡◌};
ghost use Rattle.seq_machine.specs.Differences.{found_new};
ghost use Rattle.row_check.specs.Judgments.{found_optional};
ghost use Rattle.history_check.specs.History.{kept_in, kept_in_entry, kept_in_transaction};

use access_log::{Entry, Field, Found, Item, Transaction};
use row_check::Difference;

fn found_new(new: Option<u32>) -> Found
    ensures { result ≡ found_new new }
{
    match new {
        None => Found::Nothing,
        Some(word) => Found::Hex(word),
    }
}

fn found_optional(number: Option<u32>) -> Found
    ensures { result ≡ found_optional number }
{
    match number {
        None => Found::Nothing,
        Some(number) => Found::Number(u64::from(number)),
    }
}

fn kept_in_entry(entry: &Entry, field: Field) -> Found
    ensures { result ≡ kept_in_entry entry.now field }
{
    match field {
        Field::Nth => Found::Number(u64::from(entry.nth)),
        Field::Kind => Found::Kind(entry.kind),
        Field::Addr => Found::Hex(entry.addr),
        Field::Old => Found::Hex(entry.old),
        Field::New => found_new(entry.new),
        _ => Found::Nothing,
    }
}

fn kept_in_transaction(bus: &Transaction, field: Field) -> Found
    ensures { result ≡ kept_in_transaction bus.now field }
{
    match field {
        Field::Im => Found::Number(u64::from(bus.im)),
        Field::Line => Found::Number(u64::from(bus.line)),
        Field::Ch => Found::Set(bus.ch),
        Field::Di => found_optional(bus.di),
        Field::Victim => found_optional(bus.victim),
        Field::Letter => Found::Letter(bus.letter),
        _ => Found::Nothing,
    }
}

fn kept_in(item: &Item, field: Field) -> Found
    ensures { result ≡ kept_in item.now field }
{
    match item {
        Item::Done(entry) => kept_in_entry(entry, field),
        Item::Bus(bus) => kept_in_transaction(bus, field),
    }
}

/// What is told of a field of the item at a line, by what is due there.
pub(crate) fn told(line: u32, item: &Item, field: Field, found: Found) -> Difference
    ensures { result ≡ record { line = line; field = field; kept = kept_in item.now field; found = found } }
{
    Difference {
        line,
        field,
        kept: kept_in(item, field),
        found,
    }
}
