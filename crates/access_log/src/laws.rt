//! Laws of the sequential machine. Each is the clause of a function that does nothing.
ghost use Rattle.access_log.specs.Interleaving.{InterleavingIsReplay, ReplayIsInterleaving};

/// Where each core runs by itself and each access finds what those before it left, the sequential
/// machine in that order ends with the same cores and the same memory.
pub fn interleaving_is_replay()
    ensures law { InterleavingIsReplay }
{}

/// Where the sequential machine makes these entries in this order, they are exactly the accesses
/// that each core makes by itself, each of them once.
pub fn replay_is_interleaving()
    ensures law { ReplayIsInterleaving }
{}
