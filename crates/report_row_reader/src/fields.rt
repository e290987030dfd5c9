//! What a part of a row spells, beside numbers and words.
ghost use Rattle.std.specs.Prelude.{◌≡◌, ◌≤◌, ◌<◌, ◌^◌, ◌*◌, decimal, IfSome};
ghost use Rattle.std.specs.Option.{option_copied};
ghost use Rattle.row_reader.specs.Fields.{Finds, parts_left, field_at};
ghost use Rattle.row_reader.specs.Numbers.{number_of, optional_number_of, exactly};
ghost use Rattle.report_row_reader.specs.Reading.{machine_of, policy_of, turns_of, kind_of, bit_of, letter_of, halfword_of, end_of, number_from, sets_of, address_of, address_from, some_word_of};

use access_log::Letter;
use itoa::Buffer;
use kmp_base::{MOST_SETS, MachineKind, Policy, Turns, named};
use mips_isa::{Kind, Stop};
use report_rows::MOST_TIME;
use row_reader::{Parts, bytes_of, name, number_of, optional_number_of, word_of};
use timetable::End;

#[tactic(auto, unfolding(crate::specs::Reading::machine_of))]
pub(crate) fn machine_of(text: &[u8]) -> Option<MachineKind>
    ensures { result ≡ machine_of text.now }
{
    let machines = [MachineKind::Plain, MachineKind::Pipe, MachineKind::Full];
    named(&machines.map(|machine| (machine.name(), machine)), text)
}

#[tactic(auto, unfolding(crate::specs::Reading::policy_of))]
pub(crate) fn policy_of(text: &[u8]) -> Option<Policy>
    ensures { result ≡ policy_of text.now }
{
    let policies = [Policy::Fifo, Policy::Fixed, Policy::Round, Policy::Seeded];
    named(&policies.map(|policy| (policy.name(), policy)), text)
}

#[tactic(auto, unfolding(crate::specs::Reading::turns_of))]
pub(crate) fn turns_of(text: &[u8]) -> Option<Turns>
    ensures { result ≡ turns_of text.now }
{
    let turns = [Turns::Round, Turns::Seeded, Turns::Threads];
    named(&turns.map(|turns| (turns.name(), turns)), text)
}

#[tactic(auto, unfolding(crate::specs::Reading::kind_of))]
pub(crate) fn kind_of(text: &[u8]) -> Option<Kind>
    ensures { result ≡ kind_of text.now }
{
    let kinds = [Kind::Lw, Kind::Sw, Kind::Cas];
    named(&kinds.map(|kind| (kind.name(), kind)), text)
}

/// Whether a bit is set.
#[tactic(auto, unfolding(crate::specs::Reading::bit_of))]
pub(crate) fn bit_of(text: &[u8]) -> Option<bool>
    ensures { result ≡ bit_of text.now }
{
    named(&[("1", true), ("0", false)], text)
}

#[tactic(auto, unfolding(crate::specs::Reading::letter_of))]
pub(crate) fn letter_of(text: &[u8]) -> Option<Letter>
    ensures { result ≡ letter_of text.now }
{
    let letters = [Letter::M, Letter::O, Letter::E, Letter::S, Letter::I];
    named(&letters.map(|letter| (letter.name(), letter)), text)
}

/// The 16 bits that the text spells in four lower-case hexadecimal digits.
#[tactic(auto, unfolding(crate::specs::Reading::halfword_of))]
pub(crate) fn halfword_of(text: &[u8]) -> Option<u16>
    ensures { result ≡ halfword_of text.now }
{
    let mut bytes = [0; 2];
    if bytes_of(text, &mut bytes) {
        Some(u16::from_be_bytes(bytes))
    } else {
        None
    }
}

#[tactic(auto, unfolding(crate::specs::Reading::end_of))]
pub(crate) fn end_of(text: &[u8]) -> Option<End>
    ensures { result ≡ end_of text.now }
{
    let ends = [
        End::Stopped(Stop::OffCode),
        End::Stopped(Stop::Halt),
        End::Stopped(Stop::Misaligned),
        End::Stopped(Stop::Outside),
        End::Stopped(Stop::CodeWrite),
        End::Spent,
    ];
    named(&ends.map(|end| (end.name(), end)), text)
}

/// A number of instructions, or of a cycle.
pub(crate) fn time_of(text: &[u8]) -> Option<u32>
    ensures { result ≡ number_of 100002 text.now }
{
    let n = number_of(text, u64::from(MOST_TIME))?;
    Some(n as u32)
}

/// A number up to a most, or `-` for none.
pub(crate) fn optional_short_of(text: &[u8], most: u32) -> Option<Option<u32>>
    ensures { result ≡ optional_number_of most text.now }
{
    match optional_number_of(text, u64::from(most))? {
        Some(n) => Some(Some(n as u32)),
        None => Some(None),
    }
}

/// A number of a cycle, or `-` for none.
pub(crate) fn optional_time_of(text: &[u8]) -> Option<Option<u32>>
    ensures { result ≡ optional_number_of 100002 text.now }
{
    optional_short_of(text, MOST_TIME)
}

#[tactic(auto, unfolding(crate::specs::Reading::number_from))]
pub(crate) fn number_from(text: &[u8], least: u64, most: u64) -> Option<u64>
    ensures found { result ≡ number_from least most text.now }
    ensures within { IfSome result (λ n. n ≤ most) }
    ensures some { IfSome result (λ n. least ≤ n) }
{
    let n = number_of(text, most)?;
    if least <= n { Some(n) } else { None }
}

#[tactic(auto, unfolding(crate::specs::Reading::sets_of))]
pub(crate) fn sets_of(text: &[u8]) -> Option<u64>
    ensures found { result ≡ sets_of text.now }
    ensures within { IfSome result (λ n. n ≤ 256) }
{
    let n = number_from(text, 1, u64::from(MOST_SETS))?;
    if u64::from(MOST_SETS) % n == 0 {
        Some(n)
    } else {
        None
    }
}

#[tactic(auto, unfolding(crate::specs::Reading::address_of))]
pub(crate) fn address_of(text: &[u8], bytes: u32) -> Option<u32>
    ensures found { result ≡ address_of bytes text.now }
    ensures below { IfSome result (λ n. n < bytes) }
{
    let addr = word_of(text)?;
    if addr % 4 == 0 && addr < bytes {
        Some(addr)
    } else {
        None
    }
}

#[tactic(auto, unfolding(crate::specs::Reading::address_from))]
pub(crate) fn address_from(text: &[u8], bytes: u32, low: u32) -> Option<u32>
    ensures found { result ≡ address_from bytes low text.now }
    ensures below { IfSome result (λ n. n < bytes) }
{
    let addr = address_of(text, bytes)?;
    if low <= addr { Some(addr) } else { None }
}

#[tactic(auto, unfolding(crate::specs::Reading::some_word_of))]
pub(crate) fn some_word_of(text: &[u8]) -> Option<u32>
    ensures { result ≡ some_word_of text.now }
{
    let n = word_of(text)?;
    if 1 <= n { Some(n) } else { None }
}

/// The part that is this number.
pub(crate) fn number_name<'a>(parts: Parts<'a>, n: u64) -> Option<((), Parts<'a>)>
    ensures { Finds (λ p. (p.0, parts_left (option_copied p.1))) result (field_at (exactly (decimal n)) (parts_left (option_copied parts.entry))) }
{
    let mut buffer = Buffer::new();
    name(parts, buffer.format(n).as_bytes())
}
