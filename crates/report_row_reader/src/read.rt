//! What a row of a report says, read from its text.
ghost use Rattle.std.specs.Prelude.{◌≡◌, ◌+◌, ◌<◌, ◌≤◌, [], ◌∷◌, ℕ, List, Option, false, length, codes, decimal, IfSome, IfNone, Some, None};
ghost use Rattle.row_reader.specs.Rows.{rows_of, first_passes};
ghost use Rattle.std.specs.Option.{option_copied};
ghost use Rattle.row_reader.specs.Fields.{Finds, parts_of, parts_left};
ghost use Rattle.report_row_reader.specs.Reading.{fixed_of, text_behind, number_row_of, machine_row_of, sets_row_of, policy_row_of, turns_row_of, bytes_row_of, entry_row_of, entry_access_of, entry_words_of, transaction_row_of, transaction_caches_of, bus_row_of, end_row_of, end_numbers_of, words_of, registers_row_of, memory_row_of, count_row_of, is_timed, last_stages_of, stages_of, numbered_row_of};

use crate::fields::{
    address_from, address_of, bit_of, end_of, halfword_of, kind_of, letter_of, machine_of,
    number_from, number_name, optional_short_of, optional_time_of, policy_of, sets_of,
    some_word_of, time_of, turns_of,
};
use access_log::{Entry, Transaction};
use kmp_base::{MachineKind, Policy, Turns};
use mips_isa::Kind;
use report_rows::{MemoryWord, has_bus};
use row_reader::{
    Parts, bytes_of, ended, field, name, named_row, number, optional_word, part, word,
};
use timetable::{End, TimeRow};

/// How a core ended, without its registers.
#[derive(Clone, Copy)]
pub struct EndRow {
    pub end: End,
    pub cycles: u32,
    pub retired: u32,
    pub pc: u32,
    pub dpc: u32,
}

/// A row of two parts, these.
#[tactic(auto, unfolding(crate::specs::Reading::fixed_of))]
pub fn fixed_row(row: &[u8], first: &[u8], second: &[u8]) -> Option<()>
    ensures read { result ≡ fixed_of (first.now ∷ second.now ∷ []) (parts_of row.now) }
{
    let (_, rest) = name(Some(row), first)?;
    let (_, rest) = name(rest, second)?;
    ended((), rest)
}

/// The last row.
#[tactic(auto, unfolding(crate::specs::Reading::fixed_of))]
pub fn last_row(row: &[u8]) -> Option<()>
    ensures read { result ≡ fixed_of (codes "end" ∷ []) (parts_of row.now) }
{
    let (_, rest) = name(Some(row), b"end")?;
    ended((), rest)
}

/// The text behind a name, in a row of these two parts.
fn text_behind<'a>(row: &'a [u8], title: &[u8]) -> Option<&'a [u8]>
    ensures { Finds (λ text. text.now) result (text_behind title.now (parts_of row.now)) }
{
    let (_, rest) = name(Some(row), title)?;
    let (text, rest) = part(rest)?;
    ended(text, rest)
}

/// A number behind a name.
#[tactic(auto, unfolding(crate::specs::Reading::number_row_of))]
pub fn number_row(row: &[u8], title: &[u8], least: u64, most: u64) -> Option<u64>
    ensures read { result ≡ number_row_of title.now least most (parts_of row.now) }
    ensures within { IfSome result (λ n. n ≤ most) }
    ensures some { IfSome result (λ n. least ≤ n) }
{
    number_from(text_behind(row, title)?, least, most)
}

/// How much of the machine is there: a machine without caches, for reports of others aren't read.
#[tactic(auto, unfolding(crate::specs::Reading::machine_row_of))]
pub fn machine_row(row: &[u8]) -> Option<MachineKind>
    ensures read { result ≡ machine_row_of (parts_of row.now) }
{
    machine_of(text_behind(row, b"machine")?)
}

/// The number of sets, a power of two.
#[tactic(auto, unfolding(crate::specs::Reading::sets_row_of))]
pub fn sets_row(row: &[u8]) -> Option<u64>
    ensures read { result ≡ sets_row_of (parts_of row.now) }
    ensures within { IfSome result (λ n. n ≤ 256) }
{
    sets_of(text_behind(row, b"sets")?)
}

/// Which waiting cache the bus is granted to.
#[tactic(auto, unfolding(crate::specs::Reading::policy_row_of))]
pub fn policy_row(row: &[u8]) -> Option<Policy>
    ensures read { result ≡ policy_row_of (parts_of row.now) }
{
    policy_of(text_behind(row, b"arbitration")?)
}

/// Whose cycle comes next.
#[tactic(auto, unfolding(crate::specs::Reading::turns_row_of))]
pub fn turns_row(row: &[u8]) -> Option<Turns>
    ensures read { result ≡ turns_row_of (parts_of row.now) }
{
    turns_of(text_behind(row, b"turns")?)
}

/// Bytes of the image, as many as there is room for.
#[tactic(auto, unfolding(crate::specs::Reading::bytes_row_of))]
pub fn bytes_row(row: &[u8], into: &mut [u8]) -> Option<()>
    requires few { length into.old ≤ 32 }
    ensures found { IfSome result (λ u. bytes_row_of (length into.old) (parts_of row.now) ≡ Some into.new) }
    ensures none { result ≡ None → bytes_row_of (length into.old) (parts_of row.now) ≡ None }
    ensures len { length into.new ≡ length into.old }
{
    let text = text_behind(row, b"I")?;
    if bytes_of(text, into) { Some(()) } else { None }
}

/// The words of an access, behind its core, its number, its kind and its address.
#[tactic(auto, unfolding(crate::specs::Reading::entry_words_of))]
fn entry_words(rest: Parts, core: u32, nth: u32, kind: Kind, addr: u32) -> Option<Entry>
    ensures { result ≡ entry_words_of core nth kind addr (parts_left (option_copied rest.entry)) }
{
    let (old, rest) = word(rest)?;
    let (new, rest) = optional_word(rest)?;
    let entry = Entry {
        core,
        nth,
        kind,
        addr,
        old,
        new,
    };
    ended(entry, rest)
}

/// The kind, the address and the words of an access, behind its core and its number.
#[tactic(auto, unfolding(crate::specs::Reading::entry_access_of))]
fn entry_access(rest: Parts, bytes: u32, core: u32, nth: u32) -> Option<Entry>
    ensures { result ≡ entry_access_of bytes core nth (parts_left (option_copied rest.entry)) }
{
    let (kind, rest) = field(rest, kind_of)?;
    let (addr, rest) = field(rest, |text| address_of(text, bytes))?;
    entry_words(rest, core, nth, kind, addr)
}

/// An access of one of so many cores, at a word within so many bytes, by what stands behind its row's name.
#[tactic(auto, unfolding(row_reader::specs::Numbers::exactly, crate::specs::Reading::entry_row_of))]
pub fn entry_row(parts: Parts, cores: u32, bytes: u32) -> Option<Entry>
    requires some { 0 < cores }
    ensures read { result ≡ entry_row_of cores bytes (codes "A" ∷ parts_left (option_copied parts.entry)) }
{
    let (core, rest) = number(parts, u64::from(cores - 1))?;
    let (nth, rest) = field(rest, time_of)?;
    entry_access(rest, bytes, core as u32, nth)
}

/// The other caches, the victim and the letter of a transaction, behind its master, its line and its intent.
#[tactic(auto, unfolding(crate::specs::Reading::transaction_caches_of))]
fn transaction_caches(
    rest: Parts,
    cores: u32,
    bytes: u32,
    master: u32,
    line: u32,
    im: bool,
) -> Option<Transaction>
    requires some { 0 < cores }
    requires few { cores ≤ 8 }
    requires a_line { 8 ≤ bytes }
    ensures { result ≡ transaction_caches_of cores bytes master line im (parts_left (option_copied rest.entry)) }
{
    let (ch, rest) = field(rest, halfword_of)?;
    let (di, rest) = field(rest, |text| optional_short_of(text, 2 * cores - 1))?;
    let (victim, rest) = field(rest, |text| optional_short_of(text, bytes / 8 - 1))?;
    let (letter, rest) = field(rest, letter_of)?;
    let bus = Transaction {
        master,
        line,
        im,
        ch,
        di,
        victim,
        letter,
    };
    ended(bus, rest)
}

/// A transaction of one of the two caches of so many cores, with lines within so many bytes, by what stands behind its row's
/// name.
#[tactic(auto, unfolding(row_reader::specs::Numbers::exactly, crate::specs::Reading::transaction_row_of))]
fn transaction_row(parts: Parts, cores: u32, bytes: u32) -> Option<Transaction>
    requires some { 0 < cores }
    requires few { cores ≤ 8 }
    requires a_line { 8 ≤ bytes }
    ensures read { result ≡ transaction_row_of cores bytes (codes "B" ∷ parts_left (option_copied parts.entry)) }
{
    let (master, rest) = number(parts, u64::from(2 * cores - 1))?;
    let (line, rest) = number(rest, u64::from(bytes / 8 - 1))?;
    let (im, rest) = field(rest, bit_of)?;
    transaction_caches(rest, cores, bytes, master as u32, line as u32, im)
}

/// The same on a machine; only one with a bus makes transactions.
pub fn bus_row(parts: Parts, machine: MachineKind, cores: u32, bytes: u32) -> Option<Transaction>
    requires some { 0 < cores }
    requires few { cores ≤ 8 }
    requires a_line { 8 ≤ bytes }
    ensures read { result ≡ bus_row_of machine cores bytes (codes "B" ∷ parts_left (option_copied parts.entry)) }
{
    if has_bus(machine) {
        transaction_row(parts, cores, bytes)
    } else {
        None
    }
}

/// The cycles, the instructions and the counters of a core, behind how it ended.
#[tactic(auto, unfolding(crate::specs::Reading::end_numbers_of))]
fn end_numbers(rest: Parts, budget: u32, end: End) -> Option<EndRow>
    ensures { result ≡ end_numbers_of budget end (parts_left (option_copied rest.entry)) }
{
    let (cycles, rest) = number(rest, u64::from(budget))?;
    let (retired, rest) = field(rest, time_of)?;
    let (pc, rest) = word(rest)?;
    let (dpc, rest) = word(rest)?;
    let told = EndRow {
        end,
        cycles: cycles as u32,
        retired,
        pc,
        dpc,
    };
    ended(told, rest)
}

/// How a core ended within a budget.
#[tactic(auto, unfolding(crate::specs::Reading::end_row_of))]
pub fn end_row(row: &[u8], budget: u32, core: u32) -> Option<EndRow>
    ensures read { result ≡ end_row_of budget core (parts_of row.now) }
{
    let (_, rest) = name(Some(row), b"C")?;
    let (_, rest) = number_name(rest, u64::from(core))?;
    let (end, rest) = field(rest, end_of)?;
    end_numbers(rest, budget, end)
}

/// Eight words, and nothing behind them.
#[tactic(auto, unfolding(crate::specs::Reading::words_of))]
fn eight_words(parts: Parts) -> Option<[u32; 8]>
    ensures { result ≡ words_of 8 (parts_left (option_copied parts.entry)) }
{
    let mut words = [0; 8];
    let mut rest = parts;
    for i in 0..8 {
        let (value, behind) = word(rest)?;
        words[i] = value;
        rest = behind;
    }
    ended(words, rest)
}

/// Eight registers of a core, from the first.
#[tactic(auto, unfolding(crate::specs::Reading::registers_row_of))]
pub fn registers_row(row: &[u8], core: u32, first: u32) -> Option<[u32; 8]>
    ensures read { result ≡ registers_row_of core first (parts_of row.now) }
{
    let (_, rest) = name(Some(row), b"R")?;
    let (_, rest) = number_name(rest, u64::from(core))?;
    let (_, rest) = number_name(rest, u64::from(first))?;
    eight_words(rest)
}

/// A memory word that isn't 0, at an address from `low` on within so many bytes, by what stands behind its row's name.
#[tactic(auto, unfolding(row_reader::specs::Numbers::exactly, crate::specs::Reading::memory_row_of))]
pub fn memory_row(parts: Parts, bytes: u32, low: u32) -> Option<MemoryWord>
    ensures read { result ≡ memory_row_of bytes low (codes "W" ∷ parts_left (option_copied parts.entry)) }
    ensures below { IfSome result (λ w. w.addr < bytes) }
{
    let (addr, rest) = field(parts, |text| address_from(text, bytes, low))?;
    let (value, rest) = field(rest, some_word_of)?;
    ended(MemoryWord { addr, value }, rest)
}

/// What stands behind the name and the core in the first row, and the text behind the row. None where no whole row of this
/// core's timetable comes next.
pub fn timed_parts(text: &[u8], core: u32) -> Option<(Parts<'_>, &[u8])>
    ensures none { IfNone result (first_passes (is_timed core) (rows_of text.now) ≡ false) }
    ensures some { IfSome result (λ cut.
        rows_of text.now ≡ (codes "T" ∷ decimal core ∷ parts_left (option_copied cut.0)) ∷ rows_of cut.1.now) }
    ensures shorter { IfSome result (λ cut. length cut.1.now < length text.now) }
{
    let (parts, behind) = named_row(text, b"T")?;
    let (_, stages) = number_name(parts, u64::from(core))?;
    Some((stages, behind))
}

/// The access and the last stages of an instruction, behind its first stages.
#[tactic(auto, unfolding(crate::specs::Reading::last_stages_of))]
fn last_stages(rest: Parts, i: u32, f: u32, d: u32, e: u32) -> Option<TimeRow>
    ensures { result ≡ last_stages_of i f d e (parts_left (option_copied rest.entry)) }
{
    let (a, rest) = field(rest, optional_time_of)?;
    let (m, rest) = field(rest, time_of)?;
    let (w, rest) = field(rest, optional_time_of)?;
    let row = TimeRow {
        i,
        f,
        d,
        e,
        a,
        m,
        w,
    };
    ended(row, rest)
}

/// The stages of an instruction.
#[tactic(auto, unfolding(crate::specs::Reading::stages_of))]
fn stages(rest: Parts) -> Option<TimeRow>
    ensures { result ≡ stages_of (parts_left (option_copied rest.entry)) }
{
    let (i, rest) = field(rest, time_of)?;
    let (f, rest) = field(rest, time_of)?;
    let (d, rest) = field(rest, time_of)?;
    let (e, rest) = field(rest, time_of)?;
    last_stages(rest, i, f, d, e)
}

/// The row of instruction `n` in a timetable of at most `most` rows, by what stands behind its name and its core.
#[tactic(auto, unfolding(row_reader::specs::Numbers::exactly, crate::specs::Reading::numbered_row_of))]
pub fn timed_row(parts: Parts, n: u32, most: u32) -> Option<TimeRow>
    ensures read { Finds (λ row. record { n = n; row = row }) result (numbered_row_of most n (parts_left (option_copied parts.entry))) }
    ensures few { IfSome result (λ row. n < most) }
{
    let (_, rest) = number_name(parts, u64::from(n))?;
    let row = stages(rest)?;
    if n < most { Some(row) } else { None }
}

/// The count of a name.
#[tactic(auto, unfolding(crate::specs::Reading::count_row_of))]
pub fn count_row(row: &[u8], key: &[u8]) -> Option<u64>
    ensures read { result ≡ count_row_of key.now (parts_of row.now) }
{
    let (_, rest) = name(Some(row), b"N")?;
    let (_, rest) = name(rest, key)?;
    let (n, rest) = number(rest, u64::MAX)?;
    ended(n, rest)
}
