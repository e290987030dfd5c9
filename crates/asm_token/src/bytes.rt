//! The kinds of bytes in a source.
ghost use Rattle.std.specs.Prelude.{◌≡◌, ◌≤◌, length};
ghost use Rattle.std.specs.List.{prefix_len};
ghost use Rattle.std.specs.Char.{is_digit, is_ascii_alphanumeric};
ghost use Rattle.asm_token.specs.Bytes.{is_blank, begins_name, is_name_byte, cuts_number, is_before_comment};

/// A space, a tab or a carriage return.
pub fn is_blank(byte: u8) -> bool
    ensures { result ≡ is_blank byte }
{
    matches!(byte, b' ' | b'\t' | b'\r')
}

/// A letter, `_` or `.`.
pub fn begins_name(byte: u8) -> bool
    ensures { result ≡ begins_name byte }
{
    byte.is_ascii_alphabetic() || matches!(byte, b'_' | b'.')
}

pub fn is_name_byte(byte: u8) -> bool
    ensures { result ≡ is_name_byte byte }
{
    begins_name(byte) || byte.is_ascii_digit()
}

/// What may not follow the digits of a number.
pub fn cuts_number(byte: u8) -> bool
    ensures { result ≡ cuts_number byte }
{
    begins_name(byte) || matches!(byte, b'$' | b'-')
}

fn is_before_comment(byte: u8) -> bool
    ensures { result ≡ is_before_comment byte }
{
    byte != b'#'
}

/// How many bytes at the front can stand in a name.
pub fn name_len(bytes: &[u8]) -> usize
    ensures value { result ≡ prefix_len is_name_byte bytes.now }
    ensures bound { result ≤ length bytes.now }
{
    bytes.iter().take_while(|b| is_name_byte(**b)).count()
}

/// How many bytes at the front are letters or digits.
pub fn word_len(bytes: &[u8]) -> usize
    ensures value { result ≡ prefix_len is_ascii_alphanumeric bytes.now }
    ensures bound { result ≤ length bytes.now }
{
    bytes
        .iter()
        .take_while(|b| b.is_ascii_alphanumeric())
        .count()
}

/// How many bytes at the front are digits of a radix.
pub fn digits_len(radix: u32, bytes: &[u8]) -> usize
    requires low { 2 ≤ radix }
    requires high { radix ≤ 36 }
    ensures value { result ≡ prefix_len (λ b. is_digit b radix) bytes.now }
    ensures bound { result ≤ length bytes.now }
{
    bytes
        .iter()
        .take_while(|b| char::from(**b).is_digit(radix))
        .count()
}

/// How many bytes stand before the comment.
pub fn code_len(line: &[u8]) -> usize
    ensures value { result ≡ prefix_len is_before_comment line.now }
    ensures bound { result ≤ length line.now }
{
    line.iter().take_while(|b| is_before_comment(**b)).count()
}
