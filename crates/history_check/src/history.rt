//! The rows of accesses and of transactions.
ghost use Rattle.std.specs.Prelude.{◌≡◌, ◌+◌, ◌^◌, ◌<◌, length, [], ◌∷◌, None, Some, IfOk, IfErr, OnOk, OnErr, IfSome, IfNone};
ghost use Rattle.std.specs.List.{AllByRecursion};
ghost use Rattle.kmp_base.specs.Limits.{IsWithinLimits};
ghost use Rattle.image_file.specs.Value.{code_lines};
ghost use Rattle.access_log.specs.Items.{entries};
ghost use Rattle.access_log.specs.Replay.{memory_bytes, entered_all};
ghost use Rattle.right_run.specs.Right.{caches_of};
ghost use Rattle.report_rows.specs.Bounds.{IsItem};
ghost use Rattle.history_check.specs.History.{HistoryDiffers, HistoryIsRight, ItemDiffers, kept_in};
ghost use Rattle.history_check.specs.Checks.{IsCheckable, IsNotMade, illegal_by, AreOfCores, AreNext, AreAfter};

use crate::NoMemory;
use crate::kept::told;
use access_log::Item;
use image_file::Image;
use item_check::{Illegal, Letters};
use kmp_base::{MachineKind, Setup};
use row_check::Difference;
use seq_machine::{Differs, Machine};
use std::alloc::Global;

/// The letters at the start, where the machine has caches.
fn starting_letters(
    alloc: Global,
    setup: &Setup,
    image: &Image,
) -> Result<Option<Letters>, NoMemory>
    requires limits { IsWithinLimits setup.now }
    ensures start { IfOk result (λ letters. AreAfter (caches_of setup.now) setup.now.cores (code_lines image.now) [] letters) }
    ensures caches { OnErr result (setup.now.machine ≡ MachineKind.Full) }
{
    match setup.machine {
        MachineKind::Plain | MachineKind::Pipe => Ok(None),
        MachineKind::Full => {
            let code_lines = image.code.len() as u32 / 2;
            let letters = Letters::new(alloc, setup.sets, setup.ways, setup.cores, code_lines)?;
            Ok(Some(letters))
        }
    }
}

/// Lets the machine make an item, where it is an access.
#[tactic(auto, unfolding(access_log::specs::Replay::entered_all))]
fn make(machine: &mut Machine, item: &Item) -> Result<(), Differs>
    requires item { IsCheckable (length machine.old.cores) item.now }
    ensures made { OnOk result (entered_all (entries (item.now ∷ [])) machine.old ≡ Some machine.new) }
    ensures differs { IfErr result (λ differs. IsNotMade machine.old item.now differs machine.new) }
    ensures cores { length machine.new.cores ≡ length machine.old.cores }
{
    match item {
        Item::Done(entry) => machine.apply(entry),
        Item::Bus(_) => Ok(()),
    }
}

/// Gives an item to the letters, where there are any.
fn allow(letters: &mut Option<Letters>, item: &Item, cores: u32) -> Result<(), Illegal>
    requires cores { AreOfCores cores letters.old }
    requires item { IsCheckable cores item.now }
    ensures legal { OnOk result (illegal_by letters.old item.now ≡ None) }
    ensures next { OnOk result (AreNext item.now letters.old letters.new) }
    ensures illegal { IfErr result (λ illegal. illegal_by letters.old item.now ≡ Some illegal) }
{
    match letters {
        Some(letters) => letters.next(item),
        None => Ok(()),
    }
}

/// The first field of the item at a line that differs from what is due: of an access by the machine, and where this makes it by the
/// letters, and of a transaction by the letters.
fn item_difference(
    machine: &mut Machine,
    letters: &mut Option<Letters>,
    cores: u32,
    line: u32,
    item: &Item,
) -> Option<Difference>
    requires cores { length machine.old.cores ≡ cores }
    requires letters { AreOfCores cores letters.old }
    requires item { IsCheckable cores item.now }
    ensures made { IfNone result (entered_all (entries (item.now ∷ [])) machine.old ≡ Some machine.new) }
    ensures legal { IfNone result (illegal_by letters.old item.now ≡ None) }
    ensures next { IfNone result (AreNext item.now letters.old letters.new) }
    ensures differs { IfSome result (λ difference.
        ItemDiffers machine.old (illegal_by letters.old item.now) item.now difference.field difference.found) }
    ensures line { IfSome result (λ difference. difference.line ≡ line) }
    ensures kept { IfSome result (λ difference. difference.kept ≡ kept_in item.now difference.field) }
    ensures cores { length machine.new.cores ≡ cores }
{
    if let Err(differs) = make(machine, item) {
        return Some(told(line, item, differs.field, differs.found));
    }
    if let Err(illegal) = allow(letters, item, cores) {
        return Some(told(line, item, illegal.field, illegal.found));
    }
    None
}

/// Makes the accesses of a history in their order, up to the first item that differs from what is due. All memory for the letters
/// is taken before the first item, where the machine has caches; the error says that there wasn't enough.
pub fn history_difference(
    alloc: Global,
    setup: &Setup,
    image: &Image,
    machine: &mut Machine,
    items: &[Item],
    first_line: u32,
) -> Result<Option<Difference>, NoMemory>
    requires limits { IsWithinLimits setup.now }
    requires cores { length machine.old.cores ≡ setup.now.cores }
    requires within { AllByRecursion (IsItem setup.now.machine setup.now.cores (memory_bytes machine.old)) items.now }
    requires lines { first_line + length items.now < 2 ^ 32 }
    ensures none { IfOk result (λ found. IfNone found (HistoryIsRight setup.now image.now items.now machine.old machine.new)) }
    ensures some { IfOk result (λ found. IfSome found (λ difference.
        HistoryDiffers setup.now image.now first_line items.now machine.old difference)) }
    ensures caches { OnErr result (setup.now.machine ≡ MachineKind.Full) }
{
    let mut letters = starting_letters(alloc, setup, image)?;
    let mut line = first_line;
    for item in items {
        if let Some(difference) = item_difference(machine, &mut letters, setup.cores, line, item) {
            return Ok(Some(difference));
        }
        line += 1;
    }
    Ok(None)
}
