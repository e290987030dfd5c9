//! The one spelling of an image into a sink, one number in a put.
ghost use Rattle.kmp_base.specs.Streams.{Writes};
ghost use Rattle.image_file.specs.Value.{image_bytes};

use crate::{Image, Spelling};
use kmp_base::{Sink, WriteFault, put};

/// Puts the one spelling of an image, one number of four bytes in a put. It takes no memory, and ends at the first write
/// that fails.
pub fn write_image<K: Sink>(image: &Image, sink: &mut K) -> Result<(), WriteFault>
    ensures writes { Writes K.held K.faults sink.old sink.new result (image_bytes image.now) }
{
    let mut numbers = Spelling::new(image);
    while let Some(number) = numbers.next_number() {
        put(sink, &number.to_le_bytes())?;
    }
    Ok(())
}
