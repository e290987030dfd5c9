//! What the command line can ask for.
use crate::input::Input;
use kmp_base::Setup;

/// What the command line asks for.
#[derive(Clone, Copy)]
pub enum Order {
    /// Run an input, and report the run.
    Run { setup: Setup, input: Input },
    /// Write the image of a source for a memory of so many lines of 8 bytes.
    Asm { memory_lines: u32 },
    /// Check a report.
    Replay,
    /// Run the source of so many blocks that the setup's seed draws, and report the sum of the run.
    Trial { setup: Setup, size: u32 },
}
