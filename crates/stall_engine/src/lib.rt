//! Which stages of a pipeline move in a clock.
#![tactic(auto)]

ghost use Rattle.std.specs.Prelude.{◌≡◌, ◌&&◌, ◌||◌, not};

/// Which stages hold something: IF the word of an instruction, each other stage an instruction.
#[derive(Clone, Copy, Debug, PartialEq, Eq)]
pub struct Full {
    pub fetched: bool,
    pub id: bool,
    pub ex: bool,
    pub mem: bool,
    pub wb: bool,
}

/// What keeps an instruction in its stage.
#[derive(Clone, Copy, Debug, PartialEq, Eq)]
pub struct Hazard {
    /// The one in ID waits for an operand.
    pub operand: bool,
    /// The one in M waits for the answer of its access.
    pub access: bool,
}

/// Which stages hand on what they hold. WB always does.
#[derive(Clone, Copy, Debug, PartialEq, Eq)]
pub struct Enables {
    pub fetch: bool,
    pub id: bool,
    pub ex: bool,
    pub mem: bool,
}

/// The rule by which they move.
pub mod moves {
    use crate::{Enables, Full, Hazard};

    /// A stage moves exactly where it is full, has no hazard, and the next stage is empty or moves.
    pub fn enables(full: Full, hazard: Hazard) -> Enables
        ensures mem { result.mem ≡ full.mem && not hazard.access }
        ensures ex { result.ex ≡ full.ex && (not full.mem || result.mem) }
        ensures id { result.id ≡ full.id && (not hazard.operand && (not full.ex || result.ex)) }
        ensures fetch { result.fetch ≡ full.fetched && (not full.id || result.id) }
    {
        let mem = full.mem && !hazard.access;
        let ex = full.ex && (!full.mem || mem);
        let id = full.id && !hazard.operand && (!full.ex || ex);
        let fetch = full.fetched && (!full.id || id);
        Enables { fetch, id, ex, mem }
    }
}
