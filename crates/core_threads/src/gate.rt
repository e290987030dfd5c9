//! What is called before each cycle of a core.

/// Is called before each cycle of a core, with the core and the cycle's number, from 1, while its
/// thread doesn't hold the turn.
pub trait Gate {
    fn at(&self, core: u32, cycle: u32);
}

/// A gate that does nothing.
#[derive(Drop)]
pub struct OpenGate;

impl Gate for OpenGate {
    fn at(&self, _core: u32, _cycle: u32) {}
}
