//! The rows of a report as text.
ghost use Rattle.std.specs.Prelude.{◌≡◌, ◌+◌, ◌<◌, ◌≤◌, ◌++◌, length, take, drop, map, flat_map, codes, decimal};
ghost use Rattle.std.specs.Int.{w32, to_le_bytes};
ghost use Rattle.hex.specs.Hex.{encode_lower};
ghost use Rattle.kmp_base.specs.Text.{hex8, hex4};
ghost use Rattle.kmp_base.specs.Rows.{row_text};
ghost use Rattle.row_reader.specs.Numbers.{word_or_dash, number_or_dash};
ghost use Rattle.report_rows.specs.Ends.{end_value};
ghost use Rattle.report_rows.specs.Names.{bit_name};
ghost use Rattle.report_rows.specs.Rows.{text_row, number_row, count_row_at, bytes_row, entry_row, transaction_row, item_row, core_row, registers_row, memory_row, timed_row, header_rows, core_rows, access_count_rows, bus_count_rows, wait_count_rows};

use access_log::{Entry, Item, Transaction};
use byteorder::{ByteOrder, LittleEndian};
use image_file::Spelling;
use kmp_base::{Row, Setup};
use report_rows::{Counts, MemoryWord, count_name};
use timetable::{CoreEnd, TimeRow};

/// The digit of a bit.
fn bit_name(bit: bool) -> &'static str
    ensures name { result.now ≡ bit_name bit }
    ensures short { length result.now ≤ 10 }
{
    if bit { "1" } else { "0" }
}

/// Appends a space and a word.
fn add_word(row: &mut Row, word: &str)
    requires { length row.old + length word.now ≤ 127 }
    ensures bytes { row.new ≡ row.old ++ codes " " ++ word.now }
    ensures len { length row.new ≡ length row.old + 1 + length word.now }
{
    row.text(" ");
    row.text(word);
}

/// Appends a space and a number.
#[tactic(auto, using(std_laws::proofs::NumberLaws::length_decimal_64))]
fn add_number(row: &mut Row, n: u64)
    requires { length row.old ≤ 107 }
    ensures bytes { row.new ≡ row.old ++ codes " " ++ decimal n }
    ensures len { length row.new ≤ length row.old + 21 }
{
    row.text(" ");
    row.decimal(n);
}

/// Appends a space and a number, of ten digits at most.
#[tactic(auto, using(crate::proofs::DigitLemmas::short_fits))]
fn add_short(row: &mut Row, n: u32)
    requires { length row.old ≤ 116 }
    ensures bytes { row.new ≡ row.old ++ codes " " ++ decimal n }
    ensures len { length row.new ≤ length row.old + 11 }
{
    row.text(" ");
    row.decimal(u64::from(n));
}

/// Appends a space, and such a number or `-`.
fn add_short_or_dash(row: &mut Row, n: Option<u32>)
    requires { length row.old ≤ 116 }
    ensures bytes { row.new ≡ row.old ++ codes " " ++ number_or_dash n }
    ensures len { length row.new ≤ length row.old + 11 }
{
    match n {
        Some(number) => add_short(row, number),
        None => add_word(row, "-"),
    }
}

/// Appends a space and eight digits.
fn add_hex8(row: &mut Row, n: u32)
    requires { length row.old ≤ 119 }
    ensures bytes { row.new ≡ row.old ++ codes " " ++ hex8 n }
    ensures len { length row.new ≡ length row.old + 9 }
{
    row.text(" ");
    row.hex8(n);
}

/// Appends a space, and eight digits or `-`.
fn add_hex8_or_dash(row: &mut Row, n: Option<u32>)
    requires { length row.old ≤ 119 }
    ensures bytes { row.new ≡ row.old ++ codes " " ++ word_or_dash n }
    ensures len { length row.new ≤ length row.old + 9 }
{
    match n {
        Some(word) => add_hex8(row, word),
        None => add_word(row, "-"),
    }
}

/// Appends a space and four digits.
fn add_hex4(row: &mut Row, n: u16)
    requires { length row.old ≤ 123 }
    ensures bytes { row.new ≡ row.old ++ codes " " ++ hex4 n }
    ensures len { length row.new ≡ length row.old + 5 }
{
    row.text(" ");
    row.hex4(n);
}

/// Appends the digits of a number's bytes, the lowest first.
fn add_bytes(row: &mut Row, number: u32)
    requires { length row.old ≤ 120 }
    ensures bytes { row.new ≡ row.old ++ encode_lower (to_le_bytes w32 number) }
    ensures len { length row.new ≡ length row.old + 8 }
{
    let mut bytes = [0u8; 4];
    LittleEndian::write_u32(&mut bytes, number);
    let mut digits = [0u8; 8];
    hex::encode_to_slice(bytes.as_slice(), &mut digits).unwrap();
    row.append(&digits);
}

/// Appends the digits of the next number's bytes, where one is left.
#[tactic(auto, unfolding(hex::specs::Hex::encode_with))]
fn add_next(row: &mut Row, numbers: &mut Spelling)
    requires { length row.old ≤ 120 }
    ensures bytes { row.new ≡ row.old ++ encode_lower (flat_map (to_le_bytes w32) (take 1 numbers.old)) }
    ensures len { length row.new ≤ length row.old + 8 }
    ensures left { numbers.new ≡ drop 1 numbers.old }
{
    if let Some(number) = numbers.next_number() {
        add_bytes(row, number);
    }
}

/// A name and a word.
fn word(name: &str, word: &str) -> Row
    requires { length name.now + length word.now ≤ 120 }
    ensures row { result ≡ row_text (text_row name.now word.now) }
{
    let mut row = Row::new();
    row.text(name);
    add_word(&mut row, word);
    row.text("\n");
    row
}

/// A name and a number.
pub(crate) fn number(name: &str, n: u64) -> Row
    requires { length name.now ≤ 100 }
    ensures row { result ≡ row_text (number_row name.now n) }
{
    let mut row = Row::new();
    row.text(name);
    add_number(&mut row, n);
    row.text("\n");
    row
}

/// The count at an index.
fn count_at(counts: &Counts, index: usize) -> Row
    requires { index < 13 }
    ensures row { result ≡ row_text (count_row_at counts.now.values index) }
{
    let mut row = Row::new();
    row.text("N");
    add_word(&mut row, count_name(index));
    add_number(&mut row, counts.values[index]);
    row.text("\n");
    row
}

/// The bytes of the next eight numbers of an image's spelling, or of as many as are left.
pub(crate) fn image(numbers: &mut Spelling) -> Row
    ensures row { result ≡ row_text (bytes_row (flat_map (to_le_bytes w32) (take 8 numbers.old))) }
    ensures left { numbers.new ≡ drop 8 numbers.old }
{
    let mut row = Row::new();
    row.text("I");
    row.text(" ");
    'numbers: for _ in 0..8u32 {
        add_next(&mut row, numbers);
    }
    row.text("\n");
    row
}

/// An access.
fn entry(entry: &Entry) -> Row
    ensures row { result ≡ row_text (entry_row entry.now) }
{
    let mut row = Row::new();
    row.text("A");
    add_number(&mut row, u64::from(entry.core));
    add_number(&mut row, u64::from(entry.nth));
    add_word(&mut row, entry.kind.name());
    add_hex8(&mut row, entry.addr);
    add_hex8(&mut row, entry.old);
    add_hex8_or_dash(&mut row, entry.new);
    row.text("\n");
    row
}

/// A transaction of the bus.
fn transaction(bus: &Transaction) -> Row
    ensures row { result ≡ row_text (transaction_row bus.now) }
{
    let mut row = Row::new();
    row.text("B");
    add_number(&mut row, u64::from(bus.master));
    add_number(&mut row, u64::from(bus.line));
    add_word(&mut row, bit_name(bus.im));
    add_hex4(&mut row, bus.ch);
    add_short_or_dash(&mut row, bus.di);
    add_short_or_dash(&mut row, bus.victim);
    add_word(&mut row, bus.letter.name());
    row.text("\n");
    row
}

/// What was done.
pub(crate) fn item(item: &Item) -> Row
    ensures row { result ≡ row_text (item_row item.now) }
{
    match item {
        Item::Done(done) => entry(done),
        Item::Bus(bus) => transaction(bus),
    }
}

/// How a core ended.
fn core(core: u64, ended: &CoreEnd) -> Row
    ensures row { result ≡ row_text (core_row core (end_value ended.now)) }
{
    let mut row = Row::new();
    row.text("C");
    add_number(&mut row, core);
    add_word(&mut row, ended.end.name());
    add_number(&mut row, u64::from(ended.cycles));
    add_number(&mut row, u64::from(ended.retired));
    add_hex8(&mut row, ended.state.pc);
    add_hex8(&mut row, ended.state.dpc);
    row.text("\n");
    row
}

/// Eight registers of a core.
fn registers(core: u64, first: usize, regs: &[u32; 32]) -> Row
    requires { first ≤ 24 }
    ensures row { result ≡ row_text (registers_row core first regs.now) }
{
    let mut row = Row::new();
    row.text("R");
    add_number(&mut row, core);
    add_number(&mut row, first as u64);
    for value in &regs[first..first + 8] {
        add_hex8(&mut row, *value);
    }
    row.text("\n");
    row
}

/// A word of memory.
pub(crate) fn memory(word: &MemoryWord) -> Row
    ensures row { result ≡ row_text (memory_row word.now) }
{
    let mut row = Row::new();
    row.text("W");
    add_hex8(&mut row, word.addr);
    add_hex8(&mut row, word.value);
    row.text("\n");
    row
}

/// The row of instruction `n` in the timetable of a core.
pub(crate) fn timed(core: u64, n: u32, times: &TimeRow) -> Row
    ensures row { result ≡ row_text (timed_row core n times.now) }
{
    let mut row = Row::new();
    row.text("T");
    add_number(&mut row, core);
    add_short(&mut row, n);
    add_short(&mut row, times.i);
    add_short(&mut row, times.f);
    add_short(&mut row, times.d);
    add_short(&mut row, times.e);
    add_short_or_dash(&mut row, times.a);
    add_short(&mut row, times.m);
    add_short_or_dash(&mut row, times.w);
    row.text("\n");
    row
}

/// What was asked for.
#[tactic(auto, unfolding(report_rows::specs::Rows::header_rows))]
pub(crate) fn header(setup: &Setup) -> [Row; 9]
    ensures rows { result ≡ map row_text (header_rows setup.now) }
{
    [
        word("kmp-report", "1"),
        word("machine", setup.machine.name()),
        number("cores", u64::from(setup.cores)),
        number("budget", u64::from(setup.budget)),
        word("arbitration", setup.policy.name()),
        word("turns", setup.turns.name()),
        number("seed", u64::from(setup.seed)),
        number("sets", u64::from(setup.sets)),
        number("ways", u64::from(setup.ways)),
    ]
}

/// The end of a core and its registers.
#[tactic(auto, unfolding(report_rows::specs::Rows::core_rows))]
pub(crate) fn core_end(number: u64, ended: &CoreEnd) -> [Row; 5]
    ensures rows { result ≡ map row_text (core_rows number (end_value ended.now)) }
{
    let regs = &ended.state.regs;
    [
        core(number, ended),
        registers(number, 0, regs),
        registers(number, 8, regs),
        registers(number, 16, regs),
        registers(number, 24, regs),
    ]
}

/// The counts of instructions and accesses.
#[tactic(auto, unfolding(report_rows::specs::Rows::access_count_rows))]
pub(crate) fn access_counts(counts: &Counts) -> [Row; 5]
    ensures rows { result ≡ map row_text (access_count_rows counts.now.values) }
{
    [
        count_at(counts, 0),
        count_at(counts, 1),
        count_at(counts, 2),
        count_at(counts, 3),
        count_at(counts, 4),
    ]
}

/// The counts of transactions.
#[tactic(auto, unfolding(report_rows::specs::Rows::bus_count_rows))]
pub(crate) fn bus_counts(counts: &Counts) -> [Row; 5]
    ensures rows { result ≡ map row_text (bus_count_rows counts.now.values) }
{
    [
        count_at(counts, 5),
        count_at(counts, 6),
        count_at(counts, 7),
        count_at(counts, 8),
        count_at(counts, 9),
    ]
}

/// The counts of cycles waited.
#[tactic(auto, unfolding(report_rows::specs::Rows::wait_count_rows))]
pub(crate) fn wait_counts(counts: &Counts) -> [Row; 3]
    ensures rows { result ≡ map row_text (wait_count_rows counts.now.values) }
{
    [
        count_at(counts, 10),
        count_at(counts, 11),
        count_at(counts, 12),
    ]
}
