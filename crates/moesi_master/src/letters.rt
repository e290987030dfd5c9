//! The tables of a cache's own line.
ghost use Rattle.std.specs.Prelude.{◌≡◌, false, not};
ghost use Rattle.moesi_master.specs.Moesi as moesi;

use access_log::Letter;
use mips_isa::{Kind, effects};

/// Whether a line with this letter is there to be read.
pub fn is_held(letter: Letter) -> bool
    ensures held { result ≡ moesi.is_held letter }
{
    letter != Letter::I
}

/// Whether it is the only copy.
pub fn is_sole(letter: Letter) -> bool
    ensures sole { result ≡ moesi.is_sole letter }
{
    matches!(letter, Letter::M | Letter::E)
}

/// Whether main memory is behind it.
pub fn is_dirty(letter: Letter) -> bool
    ensures dirty { result ≡ moesi.is_dirty letter }
{
    matches!(letter, Letter::M | Letter::O)
}

/// Whether a line with this letter needs no transaction, by the intent to modify.
pub fn suffices(letter: Letter, im: bool) -> bool
    ensures suffices { result ≡ moesi.suffices letter im }
{
    if im { is_sole(letter) } else { is_held(letter) }
}

/// Whether an access can be done with no transaction.
pub fn hit(letter: Letter, kind: Kind) -> bool
    ensures hit { result ≡ moesi.is_hit letter kind }
{
    suffices(letter, effects::stores(kind))
}

/// The letter after a hit, by whether it stored.
pub fn after_hit(letter: Letter, stores: bool) -> Letter
    ensures after { result ≡ moesi.after_hit letter stores }
{
    if stores { Letter::M } else { letter }
}

/// The letter after the master's own transaction, by the intent to modify and by the other caches
/// that held the line: bit k of `ch` stands for cache k.
pub fn after_finish(im: bool, ch: u16) -> Letter
    ensures after { result ≡ moesi.after_finish im ch }
{
    if im {
        Letter::M
    } else if ch == 0 {
        Letter::E
    } else {
        Letter::S
    }
}

/// Whether the master's transaction brings the words: it does but for an upgrade, whose master holds
/// the line already.
pub fn needs_supply(letter: Letter, im: bool) -> bool
    requires needed { moesi.suffices letter im ≡ false }
    ensures supply { result ≡ not (moesi.is_held letter) }
{
    !is_held(letter)
}
