//! What a pass has seen. No value of these types is made: they are what the rule of the turn tells of
//! each pass.
use access_log::Entry;
use mem_port::PortState;
use std::collections::LinkedList;

/// A port as the pass's own calls last saw it.
pub struct PortView {
    pub state: PortState,
    pub asks_left: u64,
    /// How many requests were asked there.
    pub asked: u64,
    /// How many own steps that moved something were made while the last request waited.
    pub helping: u64,
}

/// What was seen of one core.
pub struct CoreView {
    pub core: u32,
    pub fetch: PortView,
    pub access: PortView,
    /// How many steps for the core moved something.
    pub moved: u64,
    /// The entries that it took.
    pub entries: LinkedList<Entry>,
}

/// What a pass knows.
pub struct PassView<S> {
    /// The memory that the turn was made with.
    pub origin: Option<S>,
    /// The memory as it was taken, while the turn is held.
    pub taken: Option<S>,
    /// The pass's own core first, then those whose passes were joined to it.
    pub cores: LinkedList<CoreView>,
    /// How often a take found no answer, a step nothing to be moved, and a withdrawal no answer.
    pub nones: u64,
    pub idles: u64,
    pub withdrawns: u64,
}
