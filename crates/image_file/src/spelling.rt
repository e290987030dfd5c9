//! The one spelling of an image.
ghost use Rattle.std.specs.Prelude.{◌≡◌, [], ◌∷◌, ◌^◌, ◌<◌, length, sum_by, IfSome, IfNone, Ok};
ghost use Rattle.image_file.specs.Value.{segment_size, image_numbers, image_bytes, IsGood};
ghost use Rattle.image_file.specs.Reading.{image_meaning};

use crate::{Image, Segment};
use std::marker::Model;

/// The bytes `KMP1` as a number, the lowest first.
pub const MAGIC: u32 = 0x31504d4b;

/// How many numbers spell the segments.
fn segments_size(segments: &[Segment]) -> usize
    requires { sum_by segment_size segments.now < 2 ^ 32 }
    ensures { result ≡ sum_by segment_size segments.now }
{
    segments.iter().map(|segment| segment.words.len() + 2).sum()
}

/// The number of bytes of an image's spelling: 16 and 4 for each word of code, and 8 and 4 for each word of each segment.
#[tactic(auto, using(crate::proofs::SpellingLaws::bytes_of_image))]
pub fn image_size(image: &Image) -> u32
    ensures size { result ≡ length (image_bytes image.now) }
{
    let numbers = 4 + image.code.len() + segments_size(&image.segments);
    (4 * numbers) as u32
}

/// The numbers of an image's spelling that are still to come.
#[derive(Drop)]
pub struct Spelling<'a> {
    /// What stands before the words, from `index` on.
    fields: [u32; 4],
    index: usize,
    /// The words of the code or of a segment.
    words: &'a [u32],
    /// The segments behind the words.
    segments: &'a [Segment],
}

impl<'a> Model for Spelling<'a> {
    ghost use Rattle.std.specs.Prelude.{List, ℕ, drop, length, ◌*◌, ◌^◌, ◌<◌, ◌≤◌};
    ghost use Rattle.image_file.specs.Value.{numbers_from};

    ghost Value = { List ℕ };

    ghost view = { λ left. numbers_from (drop left.index left.fields) left.words.now left.segments.now };

    ghost invariant = { λ left. (left.index ≤ 4)
        × (4 * length (numbers_from (drop left.index left.fields) left.words.now left.segments.now) < 2 ^ 32) };
}

impl<'a> Spelling<'a> {
    /// All numbers of an image's spelling, which is read as that image.
    #[tactic(auto, using(crate::proofs::SpellingLaws::bytes_of_image, crate::proofs::SpellingLaws::few_segments))]
    pub fn new(image: &'a Image) -> Self
        ensures numbers { result ≡ image_numbers image.now }
        ensures good { IsGood image.now }
        ensures read { image_meaning (image_bytes image.now) ≡ Ok image.now }
    {
        Spelling {
            fields: [
                MAGIC,
                image.memory_lines,
                image.code.len() as u32,
                image.segments.len() as u32,
            ],
            index: 0,
            words: &image.code,
            segments: &image.segments,
        }
    }

    /// The next number, where one is left.
    pub fn next_number(&mut self) -> Option<u32>
        ensures some { IfSome result (λ number. self.old ≡ number ∷ self.new) }
        ensures none { IfNone result ((self.old ≡ []) × (self.new ≡ [])) }
    {
        if self.index < 4 {
            let field = self.fields[self.index];
            self.index += 1;
            return Some(field);
        }
        if let Some((word, words)) = self.words.split_first() {
            self.words = words;
            return Some(*word);
        }
        let (segment, segments) = self.segments.split_first()?;
        self.fields[3] = segment.words.len() as u32;
        self.index = 3;
        self.words = &segment.words;
        self.segments = segments;
        Some(segment.start)
    }
}
