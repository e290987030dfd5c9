//! The tokens of a line.
ghost use Rattle.std.specs.Prelude.{◌≡◌, ◌<◌, ◌≤◌, ◌+◌, ◌∷◌, length, IfOk, slice_index};
ghost use Rattle.std.specs.List.{prefix_len};
ghost use Rattle.asm_token.specs.Bytes.{cuts_number, is_name_byte};
ghost use Rattle.kmp_base.specs.Gives.{Gives};
ghost use Rattle.asm_token.specs.Tokens.{digits_at, unsigned_at, positive_at, negative_at, name_at, register_at, mark_at, token_at, without_comment, tokens_of};

use crate::bytes::{begins_name, code_len, cuts_number, digits_len, is_blank, name_len, word_len};
use crate::digits::digits_value;
use crate::fault::{AsmCause, LineFault};
use crate::name::Name;
use crate::number::Number;
use std::alloc::Global;

/// What the bytes of a line are, between blanks.
#[derive(Drop)]
pub enum Token<'a> {
    Name(Name<'a>),
    /// What stands behind `$`.
    Register(Name<'a>),
    Number(Number),
    Comma,
    Colon,
    Open,
    Close,
}

/// Whether what stands behind digits cuts them wrongly.
fn is_cut(behind: &[u8]) -> bool
    ensures { result ≡ cuts_number (slice_index behind.now 0) }
{
    match behind.first() {
        Some(&byte) => cuts_number(byte),
        None => false,
    }
}

/// The value of the digits at the front, and how many there are.
#[tactic(auto, unfolding(crate::specs::Tokens::digits_at))]
fn digits_at(radix: u32, bytes: &[u8]) -> Result<(u32, usize), AsmCause>
    requires low { 2 ≤ radix }
    requires high { radix ≤ 36 }
    ensures value { result ≡ digits_at radix bytes.now }
    ensures some { IfOk result (λ n. 0 < n.1) }
    ensures size { IfOk result (λ n. n.1 ≤ length bytes.now) }
{
    let len = digits_len(radix, bytes);
    let (digits, behind) = bytes.split_at(len);
    if digits.is_empty() || is_cut(behind) {
        return Err(AsmCause::BadByte);
    }
    match digits_value(radix, digits) {
        Some(value) => Ok((value, len)),
        None => Err(AsmCause::Range),
    }
}

/// The value of a number without a sign, and how many bytes it has.
#[tactic(auto, unfolding(crate::specs::Tokens::unsigned_at))]
fn unsigned_at(bytes: &[u8]) -> Result<(u32, usize), AsmCause>
    ensures value { result ≡ unsigned_at bytes.now }
    ensures some { IfOk result (λ n. 0 < n.1) }
    ensures size { IfOk result (λ n. n.1 ≤ length bytes.now) }
{
    if bytes.starts_with(b"0x") {
        let (value, len) = digits_at(16, &bytes[2..])?;
        Ok((value, len + 2))
    } else {
        digits_at(10, bytes)
    }
}

#[tactic(auto, unfolding(crate::specs::Tokens::positive_at))]
fn positive_at(bytes: &[u8]) -> Result<(Token<'_>, usize), AsmCause>
    ensures value { result ≡ positive_at bytes.now }
    ensures some { IfOk result (λ t. 0 < t.1) }
    ensures size { IfOk result (λ t. t.1 ≤ length bytes.now) }
{
    let (magnitude, len) = unsigned_at(bytes)?;
    Ok((
        Token::Number(Number {
            negative: false,
            magnitude,
        }),
        len,
    ))
}

/// A number, from behind its sign.
#[tactic(auto, unfolding(crate::specs::Tokens::negative_at))]
fn negative_at(bytes: &[u8]) -> Result<(Token<'_>, usize), AsmCause>
    ensures value { result ≡ negative_at bytes.now }
    ensures some { IfOk result (λ t. 0 < t.1) }
    ensures size { IfOk result (λ t. t.1 ≤ length bytes.now + 1) }
{
    let (magnitude, len) = unsigned_at(bytes)?;
    if magnitude > 1 << 31 {
        return Err(AsmCause::Range);
    }
    Ok((
        Token::Number(Number {
            negative: true,
            magnitude,
        }),
        len + 1,
    ))
}

#[tactic(auto, unfolding(crate::specs::Tokens::name_at))]
fn name_at(bytes: &[u8]) -> Result<(Token<'_>, usize), AsmCause>
    requires { 0 < prefix_len is_name_byte bytes.now }
    ensures value { result ≡ name_at bytes.now }
    ensures some { IfOk result (λ t. 0 < t.1) }
    ensures size { IfOk result (λ t. t.1 ≤ length bytes.now) }
{
    let len = name_len(bytes);
    Ok((Token::Name(Name::new(&bytes[..len])), len))
}

/// A register, from behind its `$`.
#[tactic(auto, unfolding(crate::specs::Tokens::register_at))]
fn register_at(bytes: &[u8]) -> Result<(Token<'_>, usize), AsmCause>
    ensures value { result ≡ register_at bytes.now }
    ensures some { IfOk result (λ t. 0 < t.1) }
    ensures size { IfOk result (λ t. t.1 ≤ length bytes.now + 1) }
{
    let len = word_len(bytes);
    if len == 0 {
        return Err(AsmCause::BadByte);
    }
    Ok((Token::Register(Name::new(&bytes[..len])), len + 1))
}

fn mark_at(byte: u8) -> Result<(Token<'static>, usize), AsmCause>
    ensures value { result ≡ mark_at byte }
    ensures size { IfOk result (λ t. t.1 ≡ 1) }
{
    match byte {
        b',' => Ok((Token::Comma, 1)),
        b':' => Ok((Token::Colon, 1)),
        b'(' => Ok((Token::Open, 1)),
        b')' => Ok((Token::Close, 1)),
        _ => Err(AsmCause::BadByte),
    }
}

/// The token that begins at a byte, and how many bytes it has.
#[tactic(auto, unfolding(crate::specs::Tokens::token_at))]
fn token_at<'a>(first: u8, rest: &'a [u8], bytes: &'a [u8]) -> Result<(Token<'a>, usize), AsmCause>
    requires { bytes.now ≡ first ∷ rest.now }
    ensures value { result ≡ token_at first rest.now }
    ensures some { IfOk result (λ t. 0 < t.1) }
    ensures size { IfOk result (λ t. t.1 ≤ length bytes.now) }
{
    if begins_name(first) {
        name_at(bytes)
    } else if first == b'$' {
        register_at(rest)
    } else if first.is_ascii_digit() {
        positive_at(bytes)
    } else if first == b'-' {
        negative_at(rest)
    } else {
        mark_at(first)
    }
}

/// A line up to its comment.
fn without_comment(line: &[u8]) -> &[u8]
    ensures { result.now ≡ without_comment line.now }
{
    &line[..code_len(line)]
}

/// The tokens of a line, or the leftmost fault of one: [`AsmCause::BadByte`] or [`AsmCause::Range`].
///
/// A `#` begins a comment to the end of the line. Space, tab and carriage return stand between tokens, but need not.
pub fn tokens_of(alloc: Global, line: &[u8]) -> Result<Vec<Token<'_>>, LineFault>
    ensures tokens { Gives (λ v. v.items) result (tokens_of line.now) }
{
    let mut tokens = Vec::new(alloc);
    let mut rest = without_comment(line);
    'tokens: while let Some((first, others)) = rest.split_first() {
        if is_blank(*first) {
            rest = others;
        } else {
            let (token, size) = token_at(*first, others, rest)?;
            tokens.push(token)?;
            let (_, after) = rest.split_at(size);
            rest = after;
        }
    }
    Ok(tokens)
}
