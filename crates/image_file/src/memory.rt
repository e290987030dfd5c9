//! The memory that a program starts with.
ghost use Rattle.std.specs.Prelude.{◌≡◌, ◌+◌, ◌-◌, ◌*◌, ◌/◌, ◌%◌, ◌<◌, ◌≤◌, ◌⊎◌, length, vec_len, slice_index, IfOk, IfSome, IfNone, OnOk};
ghost use Rattle.image_file.specs.Value.{with_segment, with_segments, filled, start_memory, memory_bytes, AreApart, IsGood};

use crate::{Image, NoMemory, Segment, Words};
use std::alloc::Global;

/// Goes on with zeros up to a segment, and then with its words.
fn add_segment(memory: &mut Vec<u32>, segment: &Segment) -> Result<(), NoMemory>
    requires { vec_len memory.old ≤ segment.now.start / 4 }
    ensures { OnOk result (memory.new.items ≡ with_segment memory.old.items segment.now) }
{
    memory.resize((segment.start / 4) as usize, 0)?;
    memory.extend_from_slice(&segment.words)?;
    Ok(())
}

/// Goes on with segments, and then with zeros up to so many words.
fn add_segments(memory: &mut Vec<u32>, segments: &[Segment], words: usize) -> Result<(), NoMemory>
    requires { AreApart (4 * vec_len memory.old) (4 * words) segments.now }
    ensures items { OnOk result (memory.new.items ≡ filled words (with_segments memory.old.items segments.now)) }
    ensures len { OnOk result (vec_len memory.new ≡ words) }
{
    for segment in segments {
        add_segment(memory, segment)?;
    }
    memory.resize(words, 0)?;
    Ok(())
}

/// The words that memory starts with: the code, the segments, and zeros between and behind them.
#[tactic(auto, unfolding(crate::specs::Value::start_memory))]
pub fn start_memory(alloc: Global, image: &Image) -> Result<Words, NoMemory>
    ensures words { IfOk result (λ words. words ≡ start_memory image.now) }
    ensures length { IfOk result (λ words. length words ≡ 2 * image.now.memory_lines) }
    ensures good { IsGood image.now }
{
    let mut memory = Vec::from_slice(alloc, &image.code)?;
    add_segments(
        &mut memory,
        &image.segments,
        2 * image.memory_lines as usize,
    )?;
    Ok(Words { words: memory })
}

/// The word of a segment at a byte address, where it has one.
fn word_of(segment: &Segment, addr: u32) -> Option<u32>
    ensures some { IfSome result (λ word. (segment.now.start ≤ addr)
        × (addr < segment.now.start + 4 * length segment.now.words)
        × (word ≡ slice_index segment.now.words ((addr - segment.now.start) / 4))) }
    ensures none { IfNone result ((addr < segment.now.start)
        ⊎ (segment.now.start + 4 * length segment.now.words ≤ addr)) }
{
    let offset = addr.checked_sub(segment.start)?;
    segment.words.get((offset / 4) as usize).copied()
}

/// The word that memory starts with at a byte address. It takes no memory.
pub fn word_at(image: &Image, addr: u32) -> u32
    requires aligned { addr % 4 ≡ 0 }
    requires within { addr < memory_bytes image.now }
    ensures value { result ≡ slice_index (start_memory image.now) (addr / 4) }
{
    if let Some(word) = image.code.get((addr / 4) as usize) {
        return *word;
    }
    for segment in &image.segments {
        if let Some(word) = word_of(segment, addr) {
            return word;
        }
    }
    0
}
