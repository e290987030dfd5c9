//! The letters in which caches hold lines, as the MOESI protocol has them: what a history makes of
//! them, and when it follows them.
//!
//! Laws that crates above cite:
//!
//! - `proofs/LetterLaws`: what entries and transactions make of single letters, and the letters over an append.
//! - `proofs/CopyLaws`: histories that follow the letters keep copies consistent.
//! - `proofs/DecidingLaws`, `proofs/DecidedLaws`: whether a history follows the letters, by computation.
#![tactic(auto)]

ghost use Rattle.letters.specs.Copies.{MoesiKeepsCopiesConsistent, SuppliersAreDirty, DirtyCachesSupply};
ghost use Rattle.letters.specs.Worked.{WorkedHistoriesFollow};
ghost use Rattle.letters.specs.Wrong.{WrongHistoriesDontFollow};

/// Each worked history follows the letters. The call does nothing.
pub fn worked_histories_follow()
    ensures law { WorkedHistoriesFollow }
{}

/// Each history that goes on wrongly doesn't follow the letters, and as it may go on in its place
/// it does. The call does nothing.
pub fn wrong_histories_dont_follow()
    ensures law { WrongHistoriesDontFollow }
{}

/// A history of accesses that store only by kinds that do, and of transactions, all of which the
/// letters allow, keeps copies consistent: no other cache holds a line beside the only copy, and at
/// most one cache holds it dirty, so at most one can supply it. The call does nothing.
pub fn copies_stay_consistent()
    ensures law { MoesiKeepsCopiesConsistent }
    ensures dirty { SuppliersAreDirty }
    ensures clean { DirtyCachesSupply }
{}
