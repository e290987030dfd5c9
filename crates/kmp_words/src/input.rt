//! The program that is read from an input.
ghost use Rattle.std.specs.Prelude.{◌≡◌, ◌≤◌, length};
ghost use Rattle.kmp_words.specs.Words.{IsProperInput};
ghost use Rattle.kmp_words.specs.Input.{limit_of, loaded_from, of_reading, meaning_of, Gives, Loads};
ghost use Rattle.kmp_words.specs.declared.input.LoadFault.TheVariants.{Memory};
ghost use Rattle.kmp_words.specs.declared.input.Refusal.TheVariants as refusals;

use asm_layout::split_lines;
use asm_link::assemble;
use asm_parse::{AsmCause, AsmFault, parse};
use image_file::{Image, ImageCause, ImageFault, read_image};
use kmp_base::{InputFault, Source, read_input};
use std::alloc::{AllocError, Global};

/// The most bytes of a source.
pub const SOURCE_LIMIT: usize = 1_048_576;

/// The most bytes of an image.
pub const IMAGE_LIMIT: usize = 17_825_792;

/// How an input is read.
#[derive(Clone, Copy)]
pub enum Input {
    /// As an assembler source, for a memory of so many lines of 8 bytes.
    Source(u32),
    /// As the bytes of an image, which tells its memory.
    Image,
}

/// A program as it is loaded.
#[derive(Drop)]
pub struct Loaded {
    pub image: Image,
    /// The lines of its source with an `li` or `la` of which only the first word stands in a delay slot, as
    /// [`split_lines`] tells them. An image has none.
    pub split: Vec<u32>,
}

/// Why an input has no meaning.
#[derive(Clone, Copy, Debug)]
pub enum Refusal {
    /// It has more bytes than this limit.
    TooLong(usize),
    /// The assembler refuses it, at a line.
    Asm(AsmCause, u32),
    /// It is no image, at a byte.
    Image(ImageCause, u32),
}

/// Why there is no program.
#[derive(Clone, Copy)]
pub enum LoadFault {
    Memory,
    /// A read failed.
    Read,
    Refused(Refusal),
}

impl From<AsmFault> for LoadFault {
    ghost from_gives = { λ fault result. result ≡ of_reading refusals.Asm fault };

    fn from(fault: AsmFault) -> LoadFault {
        match fault {
            AsmFault::Memory => LoadFault::Memory,
            AsmFault::At(cause, line) => LoadFault::Refused(Refusal::Asm(cause, line)),
        }
    }
}

impl From<ImageFault> for LoadFault {
    ghost from_gives = { λ fault result. result ≡ of_reading refusals.Image fault };

    fn from(fault: ImageFault) -> LoadFault {
        match fault {
            ImageFault::Memory => LoadFault::Memory,
            ImageFault::At(cause, byte) => LoadFault::Refused(Refusal::Image(cause, byte)),
        }
    }
}

impl From<AllocError> for LoadFault {
    ghost from_gives = { λ _ result. result ≡ Memory };

    fn from(_error: AllocError) -> LoadFault {
        LoadFault::Memory
    }
}

impl Input {
    /// The most bytes of such an input.
    fn limit(self) -> usize
        ensures value { result ≡ limit_of self }
    {
        match self {
            Input::Source(_) => SOURCE_LIMIT,
            Input::Image => IMAGE_LIMIT,
        }
    }
}

/// The program that a source means.
fn assembled(alloc: Global, text: &[u8], memory_lines: u32) -> Result<Loaded, LoadFault>
    requires proper { IsProperInput (Input.Source memory_lines) }
    requires size { length text.now ≤ limit_of (Input.Source memory_lines) }
    ensures meaning { Gives (loaded_from (Input.Source memory_lines) text.now) result }
{
    let statements = parse(alloc, text)?;
    let image = assemble(alloc, &statements, memory_lines)?;
    let split = split_lines(alloc, &statements)?;
    Ok(Loaded { image, split })
}

/// The image that bytes are.
fn spelled(alloc: Global, bytes: &[u8]) -> Result<Loaded, LoadFault>
    requires size { length bytes.now ≤ limit_of Input.Image }
    ensures meaning { Gives (loaded_from Input.Image bytes.now) result }
{
    let image = read_image(alloc, bytes)?;
    Ok(Loaded {
        image,
        split: Vec::new(alloc),
    })
}

/// The program that bytes mean, as an input of so many.
#[tactic(auto, unfolding(crate::specs::Input::meaning_of))]
pub fn loaded_from(alloc: Global, input: Input, bytes: &[u8]) -> Result<Loaded, LoadFault>
    requires proper { IsProperInput input }
    requires size { length bytes.now ≤ limit_of input }
    ensures meaning { Gives (meaning_of input bytes.now) result }
{
    match input {
        Input::Source(memory_lines) => assembled(alloc, bytes, memory_lines),
        Input::Image => spelled(alloc, bytes),
    }
}

/// Reads an input to its end, and gives the program that it means.
///
/// A source has at most [`SOURCE_LIMIT`] bytes, an image [`IMAGE_LIMIT`]; of a longer input one byte more is read.
pub fn load<S: Source>(alloc: Global, source: &mut S, input: Input) -> Result<Loaded, LoadFault>
    requires proper { IsProperInput input }
    ensures loads { Loads S.left S.faults source.old source.new input result }
{
    match read_input(alloc, source, input.limit()) {
        Ok(bytes) => loaded_from(alloc, input, &bytes),
        Err(InputFault::TooLong) => Err(LoadFault::Refused(Refusal::TooLong(input.limit()))),
        Err(InputFault::Failed) => Err(LoadFault::Read),
        Err(InputFault::Memory) => Err(LoadFault::Memory),
    }
}
