//! The phases of a transaction.
ghost use Rattle.std.specs.Prelude.{◌≡◌};
ghost use Rattle.moesi_master.specs.Phases.{is_on, first_phase, phase_after};

use crate::Phase;

/// Whether a transaction is on.
pub fn is_on(phase: Phase) -> bool
    ensures on { result ≡ is_on phase }
{
    phase != Phase::Off
}

/// The first phase, by whether main memory is behind the victim.
pub fn granted(is_victim_dirty: bool) -> Phase
    ensures first { result ≡ first_phase is_victim_dirty }
{
    if is_victim_dirty {
        Phase::Flush
    } else {
        Phase::Address
    }
}

/// The phase after a transition of `phase`. After it `left` caches still have to look or act;
/// `supply` says whether the master needs the words.
pub fn after(phase: Phase, left: u32, supply: bool) -> Phase
    ensures after { result ≡ phase_after phase left supply }
{
    match phase {
        Phase::Flush => Phase::Address,
        Phase::Address => Phase::Look,
        Phase::Look if left > 0 => Phase::Look,
        Phase::Look if supply => Phase::Supply,
        Phase::Look | Phase::Supply => Phase::Act,
        Phase::Act if left > 0 => Phase::Act,
        Phase::Act => Phase::Finish,
        Phase::Finish | Phase::Off => Phase::Off,
    }
}
