//! The names of what is one of a few.
ghost use Rattle.std.specs.Prelude.{◌≡◌, ◌≤◌, length, map};
ghost use Rattle.kmp_base.specs.Names.{named, machine_name, policy_name, turns_name};

use crate::{MachineKind, Policy, Turns};

impl MachineKind {
    pub fn name(self) -> &'static str
        ensures name { result.now ≡ machine_name self }
        ensures short { length result.now ≤ 10 }
    {
        match self {
            MachineKind::Plain => "plain",
            MachineKind::Pipe => "pipe",
            MachineKind::Full => "full",
        }
    }
}

impl Policy {
    pub fn name(self) -> &'static str
        ensures name { result.now ≡ policy_name self }
        ensures short { length result.now ≤ 10 }
    {
        match self {
            Policy::Fifo => "fifo",
            Policy::Fixed => "fixed",
            Policy::Round => "round",
            Policy::Seeded => "seeded",
        }
    }
}

impl Turns {
    pub fn name(self) -> &'static str
        ensures name { result.now ≡ turns_name self }
        ensures short { length result.now ≤ 10 }
    {
        match self {
            Turns::Round => "round",
            Turns::Seeded => "seeded",
            Turns::Threads => "threads",
        }
    }
}

/// The first value of a table whose name the text is.
pub fn named<T: Copy>(table: &[(&str, T)], text: &[u8]) -> Option<T>
    ensures first { result ≡ named (map (λ entry. (entry.0.now, entry.1)) table.now) text.now }
{
    for (name, value) in table {
        if name.as_bytes() == text {
            return Some(*value);
        }
    }
    None
}
