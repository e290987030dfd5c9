//! One row of text, of a fixed room.
ghost use Rattle.std.specs.Prelude.{◌≡◌, ℕ, ◌+◌, ◌≤◌, List, [], ◌++◌, length, decimal};
ghost use Rattle.kmp_base.specs.Text.{hex8, hex4};
ghost use Rattle.kmp_base.specs.declared.row.TheConstants.{ROOM};

use arrayvec::ArrayVec;
use itoa::Buffer;
use std::marker::Model;

/// The most bytes of a [`Row`].
pub const ROOM: usize = 128;

/// A row of text of at most [`ROOM`] bytes, which takes no memory. Contracts see it as its bytes.
#[derive(Drop)]
pub struct Row {
    bytes: ArrayVec<u8, ROOM>,
}

impl Model for Row {
    ghost Value = { List ℕ };

    ghost view = { λ row. row.bytes.items };
}

impl Row {
    /// A row without a byte.
    pub fn new() -> Self
        ensures empty { result ≡ [] }
    {
        Row {
            bytes: ArrayVec::new(),
        }
    }

    /// The bytes that were appended, in order.
    pub fn bytes(&self) -> &[u8]
        ensures bytes { result.now ≡ self.now }
    {
        self.bytes.as_slice()
    }

    /// Appends bytes.
    pub fn append(&mut self, bytes: &[u8])
        requires { length self.old + length bytes.now ≤ ROOM }
        ensures bytes { self.new ≡ self.old ++ bytes.now }
        ensures len { length self.new ≡ length self.old + length bytes.now }
    {
        self.bytes.try_extend_from_slice(bytes).unwrap();
    }

    /// Appends a text.
    pub fn text(&mut self, text: &str)
        requires { length self.old + length text.now ≤ ROOM }
        ensures bytes { self.new ≡ self.old ++ text.now }
        ensures len { length self.new ≡ length self.old + length text.now }
    {
        self.append(text.as_bytes());
    }

    /// Appends a number in decimal digits, without a sign or a leading zero.
    #[tactic(auto, using(std_laws::proofs::NumberLaws::length_decimal_64))]
    pub fn decimal(&mut self, n: u64)
        requires { length self.old + length (decimal n) ≤ ROOM }
        ensures bytes { self.new ≡ self.old ++ decimal n }
        ensures len { length self.new ≤ length self.old + 20 }
    {
        let mut buffer = Buffer::new();
        self.append(buffer.format(n).as_bytes());
    }

    /// Appends a number in eight lower-case hexadecimal digits.
    pub fn hex8(&mut self, n: u32)
        requires { length self.old + 8 ≤ ROOM }
        ensures bytes { self.new ≡ self.old ++ hex8 n }
        ensures len { length self.new ≡ length self.old + 8 }
    {
        let mut digits = [0u8; 8];
        hex::encode_to_slice(n.to_be_bytes().as_slice(), &mut digits).unwrap();
        self.append(&digits);
    }

    /// Appends a number in four lower-case hexadecimal digits.
    pub fn hex4(&mut self, n: u16)
        requires { length self.old + 4 ≤ ROOM }
        ensures bytes { self.new ≡ self.old ++ hex4 n }
        ensures len { length self.new ≡ length self.old + 4 }
    {
        let mut digits = [0u8; 4];
        hex::encode_to_slice(n.to_be_bytes().as_slice(), &mut digits).unwrap();
        self.append(&digits);
    }
}
