//! The state in which a core of a program begins.
ghost use Rattle.std.specs.Prelude.{◌≡◌};
ghost use Rattle.image_file.specs.Value.{start_state};

use crate::Image;
use mips_isa::{CoreState, steps};

/// The state in which the core with the number `core` begins, one of `cores`. It is the same for
/// every image.
pub fn start_state(image: &Image, core: u32, cores: u32) -> CoreState
    ensures state { result ≡ start_state image.now core cores }
{
    steps::start(core, cores)
}
