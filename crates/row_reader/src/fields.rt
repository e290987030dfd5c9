//! Values at the front of what is left of a row.
ghost use Rattle.std.specs.Prelude.{◌≡◌, ◌≤◌, ◌↔◌, ℕ, List, Option, length, Some, None, IsTrue, IfSome};
ghost use Rattle.std.specs.Bool.{OnTrue, OnFalse};
ghost use Rattle.std.specs.Fn.{FnReturnsAt};
ghost use Rattle.std.specs.Option.{option_copied};
ghost use Rattle.hex.specs.Hex.{encode_lower};
ghost use Rattle.row_reader.specs.Fields.{Finds, parts_left, field_at, ended};
ghost use Rattle.row_reader.specs.Numbers.{number_of, word_of, bytes_of, optional_word_of, optional_number_of, exactly};

use crate::{Parts, part};
use kmp_base::{decimal_of, hex8_of};

/// The number at most `limit` that the text spells in decimal digits, without a sign or a leading
/// zero.
pub fn number_of(text: &[u8], limit: u64) -> Option<u64>
    ensures found { result ≡ number_of limit text.now }
    ensures within { IfSome result (λ n. n ≤ limit) }
{
    match decimal_of(text) {
        Some(n) if n <= limit => Some(n),
        _ => None,
    }
}

/// The word that the text spells in eight lower-case hexadecimal digits.
pub fn word_of(text: &[u8]) -> Option<u32>
    ensures { result ≡ word_of text.now }
{
    hex8_of(text)
}

// Whether the text spells the bytes in lower-case hexadecimal digits.
fn is_hex(text: &[u8], bytes: &[u8]) -> bool
    requires { length bytes.now ≤ 32 }
    ensures { IsTrue result ↔ (text.now ≡ encode_lower bytes.now) }
{
    let mut room = [0u8; 64];
    let digits = &mut room[..2 * bytes.len()];
    hex::encode_to_slice(bytes, digits).unwrap();
    text == digits
}

/// Reads bytes that the text spells in lower-case hexadecimal digits, two a byte, as many as `into`
/// holds: at most 32. `hex` alone takes upper-case digits too. Where the text spells no such bytes,
/// what `into` then holds is not specified.
#[tactic(auto, unfolding(crate::specs::Numbers::bytes_of))]
pub fn bytes_of(text: &[u8], into: &mut [u8]) -> bool
    requires { length into.old ≤ 32 }
    ensures yes { OnTrue result (bytes_of (length into.old) text.now ≡ Some into.new) }
    ensures no { OnFalse result (bytes_of (length into.old) text.now ≡ None) }
    ensures size { length into.new ≡ length into.old }
{
    hex::decode_to_slice(text, into).is_ok() && is_hex(text, into)
}

/// A word, or `-` for none.
#[tactic(auto, unfolding(crate::specs::Numbers::optional_word_of))]
pub fn optional_word_of(text: &[u8]) -> Option<Option<u32>>
    ensures { result ≡ optional_word_of text.now }
{
    if text == b"-".as_slice() {
        return Some(None);
    }
    word_of(text).map(Some)
}

/// A number at most `limit`, or `-` for none.
#[tactic(auto, unfolding(crate::specs::Numbers::optional_number_of))]
pub fn optional_number_of(text: &[u8], limit: u64) -> Option<Option<u64>>
    ensures found { result ≡ optional_number_of limit text.now }
    ensures within { IfSome result (λ n. IfSome n (λ n. n ≤ limit)) }
{
    if text == b"-".as_slice() {
        return Some(None);
    }
    number_of(text, limit).map(Some)
}

/// The value that `read` gives of the next part, and what is left behind it.
pub fn field<'a, T, F: Fn(&[u8]) -> Option<T>>(parts: Parts<'a>, read: F) -> Option<(T, Parts<'a>)>
    requires { F.IsAlwaysCallable read }
    ensures read { (one : List ℕ → Option T) → ((text : List ℕ) (r : Option T) → FnReturnsAt F.Fn read text r → r ≡ one text) → Finds (λ p. (p.0, parts_left (option_copied p.1))) result (field_at one (parts_left (option_copied parts.entry))) }
    ensures from { IfSome result (λ p. (text : List ℕ) × FnReturnsAt F.Fn read text (Some p.0)) }
{
    let (text, rest) = part(parts)?;
    let value = read(text)?;
    Some((value, rest))
}

/// The next part as a number at most `limit`, and what is left behind it.
pub fn number(parts: Parts, limit: u64) -> Option<(u64, Parts)>
    ensures found { Finds (λ p. (p.0, parts_left (option_copied p.1))) result (field_at (number_of limit) (parts_left (option_copied parts.entry))) }
    ensures within { IfSome result (λ p. p.0 ≤ limit) }
{
    field(parts, |text| number_of(text, limit))
}

/// The next part as a word of eight hexadecimal digits, and what is left behind it.
pub fn word(parts: Parts) -> Option<(u32, Parts)>
    ensures { Finds (λ p. (p.0, parts_left (option_copied p.1))) result (field_at word_of (parts_left (option_copied parts.entry))) }
{
    field(parts, word_of)
}

/// The next part as a word or `-`, and what is left behind it.
pub fn optional_word(parts: Parts) -> Option<(Option<u32>, Parts)>
    ensures { Finds (λ p. (p.0, parts_left (option_copied p.1))) result (field_at optional_word_of (parts_left (option_copied parts.entry))) }
{
    field(parts, optional_word_of)
}

/// What is left behind the next part, if this is `name`.
#[tactic(auto, unfolding(crate::specs::Numbers::exactly))]
pub fn name<'a>(parts: Parts<'a>, name: &[u8]) -> Option<((), Parts<'a>)>
    ensures { Finds (λ p. (p.0, parts_left (option_copied p.1))) result (field_at (exactly name.now) (parts_left (option_copied parts.entry))) }
{
    let (text, rest) = part(parts)?;
    if text == name { Some(((), rest)) } else { None }
}

/// The value, if nothing is left behind it in its row.
pub fn ended<T: Copy>(value: T, rest: Parts) -> Option<T>
    ensures found { result ≡ ended value (parts_left (option_copied rest.entry)) }
    ensures same { IfSome result (λ x. x ≡ value) }
{
    match rest {
        None => Some(value),
        Some(_) => None,
    }
}
