//! The part of the other caches in a transaction, by the MOESI protocol.
#![tactic(auto)]

ghost use Rattle.std.specs.Prelude.{◌≡◌};
ghost use Rattle.moesi_master.specs.Moesi.{is_held, is_dirty};
ghost use Rattle.moesi_slave.specs.Slave as slave;

/// What a cache latched as it looked.
#[derive(Clone, Copy, Debug, PartialEq, Eq)]
pub struct Seen {
    /// Whether it holds the line.
    pub ch: bool,
    /// Whether it has to supply its words.
    pub di: bool,
}

/// A cache's part in the transaction that is on.
#[derive(Clone, Copy, Debug, PartialEq, Eq)]
pub enum SlavePhase {
    /// It hasn't looked.
    Fresh,
    /// It has looked and not acted. Till then its copy of the line stays as it is.
    Latched(Seen),
    /// It has acted.
    Acted,
}

/// The tables.
pub mod tables {
    use crate::{Seen, SlavePhase};
    use access_log::Letter;
    use moesi_master::letters;

    /// What a cache tells of its copy of the line.
    pub fn look(letter: Letter) -> Seen
        ensures ch { result.ch ≡ is_held letter }
        ensures di { result.di ≡ is_dirty letter }
    {
        Seen {
            ch: letters::is_held(letter),
            di: letters::is_dirty(letter),
        }
    }

    /// Its letter afterwards, by the intent to modify.
    pub fn act(letter: Letter, im: bool) -> Letter
        ensures after { result ≡ slave.after_act letter im }
    {
        match letter {
            _ if im => Letter::I,
            Letter::M | Letter::O => Letter::O,
            Letter::E | Letter::S => Letter::S,
            Letter::I => Letter::I,
        }
    }

    /// Whether it has not looked yet.
    pub fn fresh(phase: SlavePhase) -> bool
        ensures fresh { result ≡ slave.is_fresh phase }
    {
        matches!(phase, SlavePhase::Fresh)
    }

    /// Whether it has looked, and not acted.
    pub fn latched(phase: SlavePhase) -> bool
        ensures latched { result ≡ slave.is_latched phase }
    {
        matches!(phase, SlavePhase::Latched(_))
    }

    /// Whether it has acted.
    pub fn acted(phase: SlavePhase) -> bool
        ensures acted { result ≡ slave.is_acted phase }
    {
        matches!(phase, SlavePhase::Acted)
    }
}
