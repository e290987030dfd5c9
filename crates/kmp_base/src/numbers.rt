//! Numbers from their one spelling.
ghost use Rattle.std.specs.Prelude.{◌≡◌, ◌↔◌, IsTrue, ℕ, ◌+◌, ◌*◌, ◌^◌, ◌<◌, ◌≤◌, decimal, MatchOption, IfSome};
ghost use Rattle.std.specs.Char.{digit_value};
ghost use Rattle.std.specs.Str.Parse.{AllDigits, digits_value};
ghost use Rattle.kmp_base.specs.Text.{hex8, IsPlain};

/// The number below 2^64 that the text spells in decimal digits, without a sign or a leading zero.
/// Each number has one spelling; `None` for any other text.
pub fn decimal_of(text: &[u8]) -> Option<u64>
    ensures value { MatchOption result
        ((n : ℕ) → n < 2 ^ 64 → text.now ≡ decimal n → ⊥)
        (λ n. text.now ≡ decimal n) }
{
    if is_plain(text) {
        digits_of(text)
    } else {
        None
    }
}

// Whether a text isn't empty, and has no zero before anything.
fn is_plain(text: &[u8]) -> bool
    ensures plain { IsTrue result ↔ IsPlain text.now }
{
    !text.is_empty() && (text[0] != b'0' || text.len() == 1)
}

// The number below 2^64 that digits write.
fn digits_of(text: &[u8]) -> Option<u64>
    ensures value { MatchOption result
        (AllDigits 10 text.now → 2 ^ 64 ≤ digits_value 10 text.now)
        (λ n. AllDigits 10 text.now × (n ≡ digits_value 10 text.now)) }
    ensures fits { IfSome result (λ n. n < 2 ^ 64) }
{
    let mut number = 0;
    for &digit in text {
        let Some(more) = with_digit(number, digit) else {
            return None;
        };
        number = more;
    }
    Some(number)
}

// A number with one digit more.
fn with_digit(number: u64, digit: u8) -> Option<u64>
    ensures value { MatchOption result
        (digit_value digit < 10 → 2 ^ 64 ≤ number * 10 + digit_value digit)
        (λ n. (digit_value digit < 10) × (n ≡ number * 10 + digit_value digit)) }
    ensures fits { IfSome result (λ n. n < 2 ^ 64) }
{
    if !digit.is_ascii_digit() {
        return None;
    }
    number.checked_mul(10)?.checked_add(u64::from(digit - b'0'))
}

/// The number that the text spells in eight lower-case hexadecimal digits; `None` for any other
/// text.
pub fn hex8_of(text: &[u8]) -> Option<u32>
    ensures value { MatchOption result
        ((n : ℕ) → n < 2 ^ 32 → text.now ≡ hex8 n → ⊥)
        (λ n. text.now ≡ hex8 n) }
{
    let mut bytes = [0u8; 4];
    if hex::decode_to_slice(text, &mut bytes).is_err() {
        return None;
    }
    let n = u32::from_be_bytes(bytes);
    if is_hex8(text, n) { Some(n) } else { None }
}

// Whether the text spells the number. `hex` alone takes upper-case digits too.
fn is_hex8(text: &[u8], n: u32) -> bool
    ensures same { IsTrue result ↔ (text.now ≡ hex8 n) }
{
    let mut digits = [0u8; 8];
    hex::encode_to_slice(n.to_be_bytes().as_slice(), &mut digits).unwrap();
    digits.as_slice() == text
}
