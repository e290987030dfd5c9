//! The bounds of numbers.
ghost use Rattle.std.specs.Prelude.{◌≡◌};

use asm_token::Number;

/// How far a number may be below and above 0, and whether it is a multiple of 4.
#[derive(Clone, Copy)]
pub struct Bounds {
    pub below: u32,
    pub above: u32,
    pub aligned: bool,
}

/// The amount of a shift.
pub const AMOUNT: Bounds = Bounds {
    below: 0,
    above: 31,
    aligned: false,
};

/// A number of sixteen bits with a sign.
pub const SIGNED: Bounds = Bounds {
    below: 32768,
    above: 32767,
    aligned: false,
};

/// A number of sixteen bits without a sign.
pub const UNSIGNED: Bounds = Bounds {
    below: 0,
    above: 65535,
    aligned: false,
};

/// Any number that is written.
pub const WORD: Bounds = Bounds {
    below: 1 << 31,
    above: u32::MAX,
    aligned: false,
};

/// The byte address of a jump.
pub const TARGET: Bounds = Bounds {
    below: 0,
    above: (1 << 28) - 1,
    aligned: true,
};

/// A number of bytes.
pub const SPACE: Bounds = Bounds {
    below: 0,
    above: 1 << 24,
    aligned: true,
};

/// Where a segment starts.
pub const ADDRESS: Bounds = Bounds {
    below: 1 << 31,
    above: u32::MAX,
    aligned: true,
};

impl Bounds {
    ghost use Rattle.asm_parse.specs.Bounds.{is_within};

    pub fn admits(self, number: Number) -> bool
        ensures within { result ≡ is_within self number }
    {
        let limit = if number.negative {
            self.below
        } else {
            self.above
        };
        number.magnitude <= limit && (!self.aligned || number.magnitude % 4 == 0)
    }
}
