//! The names of what is one of a few.
ghost use Rattle.std.specs.Prelude.{◌≡◌, ◌≤◌, length};
ghost use Rattle.mips_isa.specs.Names.{kind_name, stop_name};

use crate::{Kind, Stop};

impl Kind {
    pub fn name(self) -> &'static str
        ensures name { result.now ≡ kind_name self }
        ensures short { length result.now ≤ 10 }
    {
        match self {
            Kind::Fetch => "fetch",
            Kind::Lw => "lw",
            Kind::Sw => "sw",
            Kind::Cas => "cas",
        }
    }
}

impl Stop {
    pub fn name(self) -> &'static str
        ensures name { result.now ≡ stop_name self }
        ensures short { length result.now ≤ 10 }
    {
        match self {
            Stop::OffCode => "offcode",
            Stop::Halt => "halt",
            Stop::Misaligned => "misaligned",
            Stop::Outside => "outside",
            Stop::CodeWrite => "codewrite",
        }
    }
}
