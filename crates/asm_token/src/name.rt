//! Names, and the registers' names.

ghost use Rattle.std.specs.Prelude.{◌≡◌};

use std::marker::Model;

/// A name, as the bytes of the source that spell it.
#[derive(Drop)]
pub struct Name<'a> {
    pub bytes: &'a [u8],
}

impl<'a> Model for Name<'a> {
    ghost use Rattle.std.specs.Prelude.{List, ℕ};

    ghost Value = { List ℕ };

    ghost view = { λ n. n.bytes.now };
}

impl<'a> Name<'a> {
    /// A name of these bytes.
    pub fn new(bytes: &'a [u8]) -> Name<'a>
        ensures bytes { result ≡ bytes.now }
    {
        Name { bytes }
    }

    pub fn as_slice(&self) -> &'a [u8]
        ensures bytes { result.now ≡ self.now }
    {
        self.bytes
    }

    /// The same name.
    pub fn copy(&self) -> Name<'a>
        ensures copy { result ≡ self.now }
    {
        Name { bytes: self.bytes }
    }
}
