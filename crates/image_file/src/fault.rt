//! What is wrong with the bytes of an image.
use kmp_base::FaultAt;
use std::fmt;

/// What is wrong with a field.
#[derive(Clone, Copy, Debug, PartialEq, Eq)]
pub enum ImageCause {
    BadMagic,
    Truncated,
    OddCode,
    BadWord,
    Overlap,
    DoesNotFit,
    Trailing,
}

impl fmt::Display for ImageCause {
    fn fmt<W: fmt::Write>(&self, f: &mut fmt::Formatter<W>) -> fmt::Result {
        f.write_str(match self {
            ImageCause::BadMagic => {
                "the input doesn't begin with KMP1, as an image does; a source is run without \
                 --image"
            }
            ImageCause::Truncated => {
                "the input ends within the field that begins here; copy the whole image"
            }
            ImageCause::OddCode => {
                "there is no code, or an odd number of words; the command asm adds a nop"
            }
            ImageCause::BadWord => {
                "the word of code spells no instruction; compare it with docs/MACHINE.md"
            }
            ImageCause::Overlap => {
                "the segment begins within the code, or within the segment before; order segments \
                 by where they start"
            }
            ImageCause::DoesNotFit => {
                "the memory has less than 2 or more than 2,097,152 lines, the code has more than \
                 65,536 words or isn't within the memory, or the segment starts at no multiple of \
                 4 or isn't within the memory; enlarge the memory"
            }
            ImageCause::Trailing => "bytes stand behind the image; cut them off",
        })
    }
}

/// Why there is no image: the cause, and the first byte of the field at fault, counted from 0.
pub type ImageFault = FaultAt<ImageCause>;
