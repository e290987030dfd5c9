//! What a report counts.
ghost use Rattle.std.specs.Prelude.{◌≡◌, ◌*◌, ◌<◌, ◌≤◌, [], ◌∷◌, length, map, is_some, count_by, sum_by, IfOk};
ghost use Rattle.std.specs.List.{All};
ghost use Rattle.kmp_base.specs.Limits.{IsWithinLimits};
ghost use Rattle.mips_isa.specs.declared.Kind.TheVariants.{Lw, Sw, Cas};
ghost use Rattle.access_log.specs.Items.{entries, transactions};
ghost use Rattle.timetable.specs.Waits.{fetch_waits, operand_waits, access_waits};
ghost use Rattle.letters.specs.Fold.{no_letters, FollowsFrom};
ghost use Rattle.item_check.specs.Held as held;
ghost use Rattle.item_check.specs.Held.{letters_of};
ghost use Rattle.item_check.specs.Illegal.{IsOfCores};
ghost use Rattle.right_run.specs.Right.{caches_of, FollowsOn};
ghost use Rattle.report_rows.specs.Bounds.{IsCount};
ghost use Rattle.report_rows.specs.Ends.{end_value};
ghost use Rattle.report_text.specs.Counts.{is_of_kind, is_swap, at_entry, is_upgrade, is_flush, count_transactions, bus_counts_of, counts_of};

use access_log::{Entry, Item, Letter, Transaction};
use image_file::Image;
use item_check::Letters;
use kmp_base::{MachineKind, Setup};
use mips_isa::Kind;
use moesi_master::letters::is_dirty;
use report_text::{Counts, NoMemory};
use std::alloc::Global;
use timetable::{CoreEnd, Waits, waits};

/// Whether an item is an access of a kind.
fn is_of_kind(item: &Item, kind: Kind) -> bool
    ensures { result ≡ at_entry (is_of_kind kind) item.now }
{
    match item {
        Item::Done(entry) => entry.kind == kind,
        Item::Bus(_) => false,
    }
}

/// Whether it is a compare-and-swap that stored.
fn is_swap(item: &Item) -> bool
    ensures { result ≡ at_entry is_swap item.now }
{
    matches!(
        item,
        Item::Done(Entry {
            kind: Kind::Cas,
            new: Some(_),
            ..
        })
    )
}

/// How many loads, stores and compare-and-swaps there are, and how many of the last stored.
#[derive(Clone, Copy)]
struct AccessCounts {
    loads: u64,
    stores: u64,
    compare_and_swaps: u64,
    swaps: u64,
}

/// Counts the accesses, in one pass.
fn count_accesses(items: &[Item]) -> AccessCounts
    ensures loads { result.loads ≡ count_by (is_of_kind Lw) (entries items.now) }
    ensures stores { result.stores ≡ count_by (is_of_kind Sw) (entries items.now) }
    ensures compare_and_swaps { result.compare_and_swaps ≡ count_by (is_of_kind Cas) (entries items.now) }
    ensures swaps { result.swaps ≡ count_by is_swap (entries items.now) }
{
    let mut counts = AccessCounts {
        loads: 0,
        stores: 0,
        compare_and_swaps: 0,
        swaps: 0,
    };
    for item in items {
        counts.loads += u64::from(is_of_kind(item, Kind::Lw));
        counts.stores += u64::from(is_of_kind(item, Kind::Sw));
        counts.compare_and_swaps += u64::from(is_of_kind(item, Kind::Cas));
        counts.swaps += u64::from(is_swap(item));
    }
    counts
}

/// How many instructions the cores retired.
fn retired(cores: &[CoreEnd]) -> u64
    requires { length cores.now ≤ 8 }
    ensures { result ≡ sum_by (λ ended. ended.retired) cores.now }
{
    cores.iter().map(|ended| u64::from(ended.retired)).sum()
}

/// What the instructions of all cores waited, by their timetables.
fn all_waits(cores: &[CoreEnd]) -> Waits
    requires few { length cores.now ≤ 8 }
    ensures fetch { result.fetch ≡ sum_by (λ ended. fetch_waits ended.rows.rows) cores.now }
    ensures operand { result.operand ≡ sum_by (λ ended. operand_waits ended.rows.rows) cores.now }
    ensures access { result.access ≡ sum_by (λ ended. access_waits ended.rows.rows) cores.now }
{
    let mut all = Waits {
        fetch: 0,
        operand: 0,
        access: 0,
    };
    for ended in cores {
        let waits = waits(&ended.rows);
        all.fetch += waits.fetch;
        all.operand += waits.operand;
        all.access += waits.access;
    }
    all
}

/// Whether the master of a transaction holds its line, which may have copies in other caches, so that it keeps its own words.
fn is_upgrade(letters: &Letters, bus: &Transaction) -> bool
    requires master { bus.now.master < 2 * letters.now.cores }
    ensures upgrade { result ≡ is_upgrade (letters_of letters.now) bus.now }
{
    matches!(letters.letter(bus.master, bus.line), Letter::O | Letter::S)
}

/// Whether the victim's words go to main memory.
fn is_flush(letters: &Letters, bus: &Transaction) -> bool
    requires master { bus.now.master < 2 * letters.now.cores }
    ensures flush { result ≡ is_flush (letters_of letters.now) bus.now }
{
    match bus.victim {
        None => false,
        Some(line) => is_dirty(letters.letter(bus.master, line)),
    }
}

/// How many transactions there are, how many of them with the intent to modify, how many whose words another cache
/// supplied, and how many upgrades and flushes.
#[derive(Clone, Copy)]
struct BusCounts {
    transactions: u64,
    exclusive: u64,
    owned: u64,
    upgrades: u64,
    flushes: u64,
}

const NO_TRANSACTION: BusCounts = BusCounts {
    transactions: 0,
    exclusive: 0,
    owned: 0,
    upgrades: 0,
    flushes: 0,
};

/// What one item counts, with the letters before it.
fn counted(letters: &Letters, item: &Item) -> BusCounts
    requires cores { IsOfCores letters.now.cores item.now }
    ensures transactions { result.transactions ≡ length (transactions (item.now ∷ [])) }
    ensures exclusive { result.exclusive ≡ count_by (λ bus. bus.im) (transactions (item.now ∷ [])) }
    ensures owned { result.owned ≡ count_by (λ bus. is_some bus.di) (transactions (item.now ∷ [])) }
    ensures upgrades { result.upgrades ≡ count_transactions (held.caches_of letters.now) is_upgrade (letters_of letters.now) (item.now ∷ []) }
    ensures flushes { result.flushes ≡ count_transactions (held.caches_of letters.now) is_flush (letters_of letters.now) (item.now ∷ []) }
    ensures few { (result.transactions ≤ 1) × (result.exclusive ≤ 1) × (result.owned ≤ 1) × (result.upgrades ≤ 1) × (result.flushes ≤ 1) }
{
    match item {
        Item::Done(_) => NO_TRANSACTION,
        Item::Bus(bus) => BusCounts {
            transactions: 1,
            exclusive: u64::from(bus.im),
            owned: u64::from(bus.di.is_some()),
            upgrades: u64::from(is_upgrade(letters, bus)),
            flushes: u64::from(is_flush(letters, bus)),
        },
    }
}

/// Counts the transactions of a history, each with the letters before it.
fn count_transactions(mut letters: Letters, items: &[Item]) -> BusCounts
    requires start { letters_of letters ≡ no_letters }
    requires follows { FollowsFrom (held.caches_of letters) letters.cores letters.code_lines no_letters items.now }
    ensures transactions { result.transactions ≡ length (transactions items.now) }
    ensures exclusive { result.exclusive ≡ count_by (λ bus. bus.im) (transactions items.now) }
    ensures owned { result.owned ≡ count_by (λ bus. is_some bus.di) (transactions items.now) }
    ensures upgrades { result.upgrades ≡ count_transactions (held.caches_of letters) is_upgrade no_letters items.now }
    ensures flushes { result.flushes ≡ count_transactions (held.caches_of letters) is_flush no_letters items.now }
{
    let mut counts = NO_TRANSACTION;
    for item in items {
        let more = counted(&letters, item);
        counts.transactions += more.transactions;
        counts.exclusive += more.exclusive;
        counts.owned += more.owned;
        counts.upgrades += more.upgrades;
        counts.flushes += more.flushes;
        let Ok(()) = letters.next(item) else {
            unreachable!()
        };
    }
    counts
}

/// The counts of transactions. Without caches all are 0, and no memory is taken.
fn bus_counts(
    alloc: Global,
    setup: &Setup,
    image: &Image,
    items: &[Item],
) -> Result<BusCounts, NoMemory>
    requires limits { IsWithinLimits setup.now }
    requires follows { FollowsOn setup.now.machine setup.now image.now items.now }
    ensures counts { IfOk result (λ counts.
        counts.transactions ∷ counts.exclusive ∷ counts.owned ∷ counts.upgrades ∷ counts.flushes ∷ [] ≡ bus_counts_of (caches_of setup.now) items.now) }
{
    match setup.machine {
        MachineKind::Plain | MachineKind::Pipe => Ok(NO_TRANSACTION),
        MachineKind::Full => {
            let code_lines = image.code.len() as u32 / 2;
            let letters = Letters::new(alloc, setup.sets, setup.ways, setup.cores, code_lines)?;
            Ok(count_transactions(letters, items))
        }
    }
}

/// The counts of a run: what the cores retired, their accesses by kind, the transactions of their caches by kind, and how
/// long their instructions waited for words, for operands and for the answers to accesses. Without caches the counts of
/// transactions are 0. It fails only for want of memory, which is taken only where there are caches.
#[tactic(auto, unfolding(report_text::specs::Counts::counts_of))]
pub fn counts_of(
    alloc: Global,
    setup: &Setup,
    image: &Image,
    cores: &[CoreEnd],
    items: &[Item],
) -> Result<Counts, NoMemory>
    requires limits { IsWithinLimits setup.now }
    requires few { length cores.now ≤ 8 }
    requires follows { FollowsOn setup.now.machine setup.now image.now items.now }
    ensures counts { IfOk result (λ counts. counts.values ≡ counts_of (caches_of setup.now) (map end_value cores.now) items.now) }
    ensures fit { IfOk result (λ counts. All IsCount counts.values) }
{
    let accesses = count_accesses(items);
    let bus = bus_counts(alloc, setup, image, items)?;
    let waits = all_waits(cores);
    Ok(Counts {
        values: [
            retired(cores),
            accesses.loads,
            accesses.stores,
            accesses.compare_and_swaps,
            accesses.swaps,
            bus.transactions,
            bus.exclusive,
            bus.owned,
            bus.upgrades,
            bus.flushes,
            waits.fetch,
            waits.operand,
            waits.access,
        ],
    })
}
