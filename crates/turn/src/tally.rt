//! The calls on a memory that are counted. Contracts alone read them.
use mem_port::Port;
use std::snapshot::Snapshot;

/// The calls on a memory that are counted, the last one first. What was before it is a snapshot, so a
/// tally has the size of one call, and no number in it can grow too large.
#[derive(Drop)]
pub enum Tally<M> {
    /// There was none yet.
    Fresh,
    /// A request was asked on a port.
    Asked(Snapshot<Tally<M>>, Port),
    /// One was served there.
    Served(Snapshot<Tally<M>>, Port),
    /// A step for a core moved something, in a memory that was so before.
    Moved(Snapshot<Tally<M>>, Snapshot<M>, u32),
}
