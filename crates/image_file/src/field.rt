//! The numbers that an image is made of, and what can be wrong with them.
ghost use Rattle.std.specs.Prelude.{◌≡◌, not, ◌||◌, length, is_some, IfOk};
ghost use Rattle.kmp_base.specs.declared.fault.Fault.TheVariants.{Cause};
ghost use Rattle.kmp_base.specs.Gives.{Gives};
ghost use Rattle.mips_isa.specs.Fields.{instr_of};
ghost use Rattle.image_file.specs.Reading.{number_in, word_in, words_in, may_stand};

use crate::ImageCause;
use kmp_base::Fault;
use mips_isa::words::decode;
use std::alloc::Global;

/// What is wrong with a field, and how many bytes are left from its first byte on.
pub type FieldFault = Fault<(ImageCause, usize)>;

/// A fault of the field at the front.
pub fn fault_at(cause: ImageCause, bytes: &[u8]) -> FieldFault
    ensures value { result ≡ Cause (cause, length bytes.now) }
{
    Fault::Cause((cause, bytes.len()))
}

/// The number at the front, and the bytes behind it.
pub fn number_in(bytes: &[u8]) -> Result<(u32, &[u8]), FieldFault>
    ensures value { Gives (λ n. (n.0, n.1.now)) result (number_in bytes.now) }
{
    match bytes {
        [a, b, c, d, rest @ ..] => Ok((u32::from_le_bytes([*a, *b, *c, *d]), rest)),
        _ => Err(fault_at(ImageCause::Truncated, bytes)),
    }
}

/// Whether a word may stand in the code, or else in a segment.
fn may_stand(in_code: bool, word: u32) -> bool
    ensures value { result ≡ may_stand in_code word }
{
    !in_code || decode(word).is_some()
}

/// The word at the front, of the code or of a segment.
#[tactic(auto, unfolding(crate::specs::Reading::word_in))]
fn word_in(in_code: bool, bytes: &[u8]) -> Result<(u32, &[u8]), FieldFault>
    ensures value { Gives (λ n. (n.0, n.1.now)) result (word_in (may_stand in_code) bytes.now) }
{
    let (word, rest) = number_in(bytes)?;
    if !may_stand(in_code, word) {
        return Err(fault_at(ImageCause::BadWord, bytes));
    }
    Ok((word, rest))
}

/// So many words, of the code or of a segment. Memory is taken as they come.
pub fn words_in(
    alloc: Global,
    in_code: bool,
    count: u32,
    bytes: &[u8],
) -> Result<(Vec<u32>, &[u8]), FieldFault>
    ensures value { Gives (λ w. (w.0.items, w.1.now)) result (words_in (may_stand in_code) count bytes.now) }
    ensures len { IfOk result (λ w. length w.0.items ≡ count) }
{
    let mut words = Vec::new(alloc);
    let mut rest = bytes;
    for _ in 0..count {
        let (word, behind) = word_in(in_code, rest)?;
        words.push(word)?;
        rest = behind;
    }
    Ok((words, rest))
}
