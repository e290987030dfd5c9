//! The image that bytes spell.
ghost use Rattle.std.specs.Prelude.{◌≡◌, ◌+◌, ◌*◌, ◌^◌, ◌≤◌, length, IfOk};
ghost use Rattle.kmp_base.specs.Gives.{Gives, GivesAt};
ghost use Rattle.image_file.specs.Value.{image_bytes};
ghost use Rattle.image_file.specs.Reading.{magic_in, lines_in, code_count_in, fits, segment_in, segments_in, image_in, image_meaning};

use crate::field::{FieldFault, fault_at, number_in, words_in};
use crate::spelling::MAGIC;
use crate::{Image, ImageCause, ImageFault, Segment};
use kmp_base::Fault;
use std::alloc::Global;

/// What stands behind the bytes `KMP1`.
#[tactic(auto, unfolding(crate::specs::Reading::magic_in))]
fn magic_in(bytes: &[u8]) -> Result<&[u8], FieldFault>
    ensures value { Gives (λ rest. rest.now) result (magic_in bytes.now) }
{
    let (magic, rest) = number_in(bytes)?;
    if magic != MAGIC {
        return Err(fault_at(ImageCause::BadMagic, bytes));
    }
    Ok(rest)
}

/// How many lines memory has.
#[tactic(auto, unfolding(crate::specs::Reading::lines_in))]
fn lines_in(bytes: &[u8]) -> Result<(u32, &[u8]), FieldFault>
    ensures value { Gives (λ n. (n.0, n.1.now)) result (lines_in bytes.now) }
    ensures most { IfOk result (λ n. n.0 ≤ 2 ^ 21) }
{
    let (lines, rest) = number_in(bytes)?;
    if lines < 2 || lines > 1 << 21 {
        return Err(fault_at(ImageCause::DoesNotFit, bytes));
    }
    Ok((lines, rest))
}

/// How many words the code has, in so many bytes of memory.
#[tactic(auto, unfolding(crate::specs::Reading::code_count_in))]
fn code_count_in(memory: u32, bytes: &[u8]) -> Result<(u32, &[u8]), FieldFault>
    ensures value { Gives (λ n. (n.0, n.1.now)) result (code_count_in memory bytes.now) }
    ensures most { IfOk result (λ n. n.0 ≤ 2 ^ 16) }
{
    let (count, rest) = number_in(bytes)?;
    if count == 0 || count % 2 != 0 {
        return Err(fault_at(ImageCause::OddCode, bytes));
    }
    if count > 1 << 16 || 4 * count > memory {
        return Err(fault_at(ImageCause::DoesNotFit, bytes));
    }
    Ok((count, rest))
}

/// Whether words have room from a start on, in so many bytes of memory.
fn fits(memory: u32, start: u32, count: u32) -> bool
    ensures value { result ≡ fits memory start count }
{
    start % 4 == 0 && u64::from(start) + 4 * u64::from(count) <= u64::from(memory)
}

/// A segment behind an end, in so many bytes of memory.
#[tactic(auto, unfolding(crate::specs::Reading::segment_in))]
fn segment_in(
    alloc: Global,
    memory: u32,
    end: u32,
    bytes: &[u8],
) -> Result<(Segment, &[u8]), FieldFault>
    ensures value { Gives (λ s. (s.0, s.1.now)) result (segment_in memory end bytes.now) }
    ensures within { IfOk result (λ s. s.0.start + 4 * length s.0.words ≤ memory) }
{
    let (start, rest) = number_in(bytes)?;
    let (count, rest) = number_in(rest)?;
    if !fits(memory, start, count) {
        return Err(fault_at(ImageCause::DoesNotFit, bytes));
    }
    if start < end {
        return Err(fault_at(ImageCause::Overlap, bytes));
    }
    let (words, rest) = words_in(alloc, false, count, rest)?;
    Ok((Segment { start, words }, rest))
}

/// So many segments, each behind the one before.
fn segments_in(
    alloc: Global,
    memory: u32,
    end: u32,
    count: u32,
    bytes: &[u8],
) -> Result<(Vec<Segment>, &[u8]), FieldFault>
    ensures value { Gives (λ s. (s.0.items, s.1.now)) result (segments_in memory end count bytes.now) }
{
    let mut segments = Vec::new(alloc);
    let mut end = end;
    let mut rest = bytes;
    for _ in 0..count {
        let (segment, behind) = segment_in(alloc, memory, end, rest)?;
        end = segment.start + 4 * segment.words.len() as u32;
        segments.push(segment)?;
        rest = behind;
    }
    Ok((segments, rest))
}

/// The image that bytes spell.
#[tactic(auto, unfolding(crate::specs::Reading::image_in))]
fn image_in(alloc: Global, bytes: &[u8]) -> Result<Image, FieldFault>
    requires size { length bytes.now ≤ 268435456 }
    ensures value { Gives (λ image. image) result (image_in bytes.now) }
{
    let rest = magic_in(bytes)?;
    let (memory_lines, rest) = lines_in(rest)?;
    let memory = 8 * memory_lines;
    let (code_count, rest) = code_count_in(memory, rest)?;
    let (segment_count, rest) = number_in(rest)?;
    let (code, rest) = words_in(alloc, true, code_count, rest)?;
    let (segments, rest) = segments_in(alloc, memory, 4 * code_count, segment_count, rest)?;
    if !rest.is_empty() {
        return Err(fault_at(ImageCause::Trailing, rest));
    }
    Ok(Image {
        memory_lines,
        code,
        segments,
    })
}

/// The image that bytes spell, or the first of their fields that is at fault.
pub fn read_image(alloc: Global, bytes: &[u8]) -> Result<Image, ImageFault>
    requires size { length bytes.now ≤ 268435456 }
    ensures meaning { GivesAt (λ image. image) result (image_meaning bytes.now) }
    ensures spelled { IfOk result (λ image. bytes.now ≡ image_bytes image) }
{
    match image_in(alloc, bytes) {
        Ok(image) => Ok(image),
        Err(Fault::Memory) => Err(ImageFault::Memory),
        Err(Fault::Cause((cause, left))) => {
            Err(ImageFault::At(cause, (bytes.len() - left) as u32))
        }
    }
}
