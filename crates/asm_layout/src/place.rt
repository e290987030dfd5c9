//! Where statements stand.
ghost use Rattle.std.specs.Prelude.{◌≡◌, ◌+◌, ◌^◌, ◌<◌, ◌≤◌, []};
ghost use Rattle.asm_parse.specs.Statements.{part_moved};
ghost use Rattle.asm_layout.specs.Places.{code_size, data_size, data_moved, place_moved, place_behind, address_at};

use asm_parse::{Body, Part};

/// The part in force, the end of the code, and the end of the data in the segment in force.
#[derive(Clone, Copy)]
pub struct Place {
    pub part: Part,
    pub code_end: u64,
    pub data_end: u64,
}

/// How many bytes of code a statement has.
pub fn code_size(body: &Body<'_>) -> u64
    ensures value { result ≡ code_size body.now }
    ensures bound { result ≤ 8 }
{
    match body {
        Body::Plain(_) | Body::BranchTo(_, _) | Body::JumpTo(_, _) => 4,
        Body::Load(_, _) => 8,
        _ => 0,
    }
}

/// How many bytes of data a statement has.
pub fn data_size(body: &Body<'_>) -> u64
    ensures value { result ≡ data_size body.now }
    ensures bound { result < 2 ^ 32 }
{
    match body {
        Body::Word(_) => 4,
        Body::Space(bytes) => u64::from(*bytes),
        _ => 0,
    }
}

impl Place {
    /// The place before all statements of a source whose code ends at `end`.
    #[tactic(auto, unfolding(crate::specs::Places::code_behind, crate::specs::Places::data_behind, crate::specs::Places::part_behind,))]
    pub fn start(end: u64) -> Place
        ensures value { result ≡ place_behind end [] }
        ensures code { result.code_end ≡ 0 }
        ensures segment { result.data_end ≡ end }
    {
        Place {
            part: Part::Text,
            code_end: 0,
            data_end: end,
        }
    }

    /// The address of a label at this place.
    pub fn address(self) -> u64
        ensures value { result ≡ address_at self }
    {
        match self.part {
            Part::Text => self.code_end,
            Part::Data => self.data_end,
        }
    }

    /// The place behind one more statement.
    pub fn moved(self, body: &Body<'_>) -> Place
        requires code { self.code_end < 2 ^ 62 }
        requires segment { self.data_end < 2 ^ 62 }
        ensures value { result ≡ place_moved self body.now }
        ensures code { result.code_end ≤ self.code_end + 8 }
        ensures segment { result.data_end ≤ self.data_end + 2 ^ 32 }
    {
        let part = match body {
            Body::Text => Part::Text,
            Body::Data | Body::DataAt(_) => Part::Data,
            _ => self.part,
        };
        let data_end = match body {
            Body::DataAt(start) => u64::from(*start),
            _ => self.data_end + data_size(body),
        };
        Place {
            part,
            code_end: self.code_end + code_size(body),
            data_end,
        }
    }
}
