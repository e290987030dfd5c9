//! What keeps caches, bus and main memory right, on values alone: no program stands here.
//!
//! - `specs/Bus`: the transaction that is on, and how far it has come.
//! - `specs/Coherence`: what letters, words and main memory have to do with one another.
//! - `specs/Split`: what holds between two transitions of a transaction.
//!
//! The laws that other crates cite:
//! - `proofs/LetterLaws`: single letters, the MOESI tables, folds of a history that goes on.
//! - `proofs/CoherenceLaws`: an entry, a write-back and a transaction keep copies right.
//! - `proofs/HitLaws`: a hit between two transitions.
//! - `proofs/TransitionLaws`, `proofs/FinishLaws`: each transition of a transaction.
#![tactic(auto)]
