//! The fields of a report's rows, and what stands in them.
ghost use Rattle.std.specs.Prelude.{◌≡◌, ◌≤◌, length};
ghost use Rattle.access_log.specs.Names.{field_name};

use crate::Letter;
use mips_isa::{Kind, Stop};

/// A field of a row, in the order in which the fields of its row are compared.
#[derive(Clone, Copy, Debug, PartialEq, Eq)]
pub enum Field {
    /// Of an access: the number of instructions that its core executed before.
    Nth,
    /// Load, store or compare and swap.
    Kind,
    /// The access's address.
    Addr,
    /// What memory had there.
    Old,
    /// What was stored there.
    New,
    /// Of a transaction: the intent to modify.
    Im,
    /// The line that was wanted.
    Line,
    /// How the master held it before.
    Held,
    /// The caches that held it beside the master.
    Ch,
    /// The cache that intervened.
    Di,
    /// The line that the master dropped.
    Victim,
    /// Of an access over caches: how the core's data cache held the line. Of a transaction: how the
    /// master holds the line that was wanted behind it.
    Letter,
    /// Of the end of a core: the number of instructions that it executed.
    Retired,
    /// Why it went no further.
    End,
    /// The cycles that it took.
    Cycles,
    /// The number of rows of its timetable.
    Rows,
    Pc,
    Dpc,
    /// A register of a core.
    Register,
    /// A word of memory.
    Word,
    /// Of a timetable: the cycle in which an instruction's word was taken.
    I,
    /// In which it left the stage of the fetch.
    F,
    /// In which it left the stage of decoding.
    D,
    /// In which it left the stage of execution.
    E,
    /// In which the answer to its access was taken.
    A,
    /// In which it left the stage of memory.
    M,
    /// In which it left the last stage.
    W,
    /// A count.
    Count,
}

impl Field {
    /// Its name in the verdict on a report.
    pub fn name(self) -> &'static str
        ensures name { result.now ≡ field_name self }
        ensures short { length result.now ≤ 8 }
    {
        match self {
            Field::Nth => "nth",
            Field::Kind => "kind",
            Field::Addr => "addr",
            Field::Old => "old",
            Field::New => "new",
            Field::Letter => "letter",
            Field::Im => "im",
            Field::Line => "line",
            Field::Held => "held",
            Field::Ch => "ch",
            Field::Di => "di",
            Field::Victim => "victim",
            Field::Retired => "retired",
            Field::End => "end",
            Field::Cycles => "cycles",
            Field::Rows => "rows",
            Field::Pc => "pc",
            Field::Dpc => "dpc",
            Field::Register => "register",
            Field::Word => "word",
            Field::I => "I",
            Field::F => "F",
            Field::D => "D",
            Field::E => "E",
            Field::A => "A",
            Field::M => "M",
            Field::W => "W",
            Field::Count => "count",
        }
    }
}

/// What stands in a field, or is due there.
#[derive(Clone, Copy, Debug, PartialEq, Eq)]
pub enum Found {
    /// A number in decimal.
    Number(u64),
    /// A word, or an address in bytes.
    Hex(u32),
    Kind(Kind),
    Letter(Letter),
    /// A stop; none for a spent budget.
    End(Option<Stop>),
    /// An address in bytes, and the word there.
    Word(u32, u32),
    /// A set of caches: bit k stands for cache k.
    Set(u16),
    /// Nothing.
    Nothing,
}
