//! Numbers as they are written.
ghost use Rattle.std.specs.Prelude.{◌≡◌};

/// A number from -2,147,483,648 to 4,294,967,295, by its sign and its distance from 0.
#[derive(Clone, Copy)]
pub struct Number {
    pub negative: bool,
    pub magnitude: u32,
}

impl Number {
    ghost use Rattle.asm_token.specs.Numbers.{word_of};

    /// The word of a number: a negative one is meant modulo 2 ^ 32.
    pub fn word(self) -> u32
        ensures word { result ≡ word_of self }
    {
        if self.negative {
            self.magnitude.wrapping_neg()
        } else {
            self.magnitude
        }
    }
}
