//! The value of a run of digits.
ghost use Rattle.std.specs.Prelude.{◌≡◌, ◌<◌, ◌≤◌, ◌^◌, SomeIff};
ghost use Rattle.std.specs.Char.{digit_value};
ghost use Rattle.std.specs.Str.Parse.{digits_value};

/// The value of a digit or a letter, and 36 for any other byte.
fn digit_value(byte: u8) -> u32
    ensures { result ≡ digit_value byte }
{
    char::from(byte).to_digit(36).unwrap_or(36)
}

/// The value of digits, where it is below 2 ^ 32.
pub fn digits_value(radix: u32, digits: &[u8]) -> Option<u32>
    requires { 0 < radix }
    ensures { SomeIff result (digits_value radix digits.now < 2 ^ 32) (digits_value radix digits.now) }
{
    let mut value: u32 = 0;
    for digit in digits {
        value = value.checked_mul(radix)?.checked_add(digit_value(*digit))?;
    }
    Some(value)
}
