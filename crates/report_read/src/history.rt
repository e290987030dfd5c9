//! What was done, from the rows behind the image.
ghost use Rattle.std.specs.Prelude.{◌≡◌, ◌^◌, ◌<◌, ◌≤◌, length, IfOk, IfSome};
ghost use Rattle.std.specs.List.{AllByRecursion};
ghost use Rattle.std.specs.Option.{option_map};
ghost use Rattle.access_log.specs.Indices.{IsOfCore};
ghost use Rattle.row_reader.specs.Rows.{rows_of};
ghost use Rattle.row_reader.specs.Gives.{Gives};
ghost use Rattle.report_read.specs.Reading.{item_at, items_at};

use access_log::{History, Item};
use kmp_base::{Fault, MachineKind};
use report_row_reader::{bus_row, entry_row};
use report_text::NoMemory;
use row_reader::{Stuck, named_row};
use std::alloc::Global;

/// The item in the first row of a text, and the text behind the row. None where no whole row of a history comes next.
fn next_item<'a>(
    text: &'a [u8],
    machine: MachineKind,
    cores: u32,
    bytes: u32,
) -> Result<Option<(Item, &'a [u8])>, Stuck<'a>>
    requires some_cores { 0 < cores }
    requires few_cores { cores ≤ 8 }
    requires a_line { 8 ≤ bytes }
    ensures found { Gives (λ next. option_map (λ p. (p.0, rows_of p.1.now)) next) result (item_at machine cores bytes (rows_of text.now)) }
    ensures core { IfOk result (λ next. IfSome next (λ p. IsOfCore p.0)) }
    ensures shorter { IfOk result (λ next. IfSome next (λ p. length p.1.now < length text.now)) }
{
    if let Some((parts, behind)) = named_row(text, b"A") {
        return match entry_row(parts, cores, bytes) {
            Some(entry) => Ok(Some((Item::Done(entry), behind))),
            None => Err(Fault::Cause(text)),
        };
    }
    let Some((parts, behind)) = named_row(text, b"B") else {
        return Ok(None);
    };
    match bus_row(parts, machine, cores, bytes) {
        Some(bus) => Ok(Some((Item::Bus(bus), behind))),
        None => Err(Fault::Cause(text)),
    }
}

/// The items that stand first in a text.
fn items<'a>(
    alloc: Global,
    text: &'a [u8],
    machine: MachineKind,
    cores: u32,
    bytes: u32,
) -> Result<(Vec<Item>, &'a [u8]), Stuck<'a>>
    requires some_cores { 0 < cores }
    requires few_cores { cores ≤ 8 }
    requires a_line { 8 ≤ bytes }
    ensures found { Gives (λ x. (x.0.items, rows_of x.1.now)) result (items_at machine cores bytes (rows_of text.now)) }
    ensures cores { IfOk result (λ x. AllByRecursion IsOfCore x.0.items) }
    ensures few { IfOk result (λ x. length x.0.items ≤ length text.now) }
{
    let mut items = Vec::new(alloc);
    let mut rest = text;
    'rows: while let Some((item, behind)) = next_item(rest, machine, cores, bytes)? {
        items.push(item)?;
        rest = behind;
    }
    Ok((items, rest))
}

/// The list of these items, with exactly the room for them.
fn listed(alloc: Global, items: &[Item]) -> Result<History, NoMemory>
    requires few { length items.now < 2 ^ 32 }
    requires cores { AllByRecursion IsOfCore items.now }
    ensures { IfOk result (λ history. history.items ≡ items.now) }
{
    let mut history = History::new(alloc, items.len() as u32)?;
    for item in items {
        history.push(*item);
    }
    Ok(history)
}

/// What was done on a machine, by the rows that stand first in a text.
pub(crate) fn history<'a>(
    alloc: Global,
    text: &'a [u8],
    machine: MachineKind,
    cores: u32,
    bytes: u32,
) -> Result<(History, &'a [u8]), Stuck<'a>>
    requires some_cores { 0 < cores }
    requires few_cores { cores ≤ 8 }
    requires a_line { 8 ≤ bytes }
    requires small { length text.now < 2 ^ 32 }
    ensures found { Gives (λ x. (x.0.items, rows_of x.1.now)) result (items_at machine cores bytes (rows_of text.now)) }
{
    let (items, rest) = items(alloc, text, machine, cores, bytes)?;
    let history = listed(alloc, &items)?;
    Ok((history, rest))
}
