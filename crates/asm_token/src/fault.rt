//! What is wrong with a source.

ghost use Rattle.std.specs.Prelude.{◌≡◌};
ghost use Rattle.kmp_base.specs.declared.fault.Fault.TheVariants.{Cause};

use kmp_base::{Fault, FaultAt};
use std::error::Error;
use std::fmt::{self, Display, Formatter, Write};

/// What is wrong with a line, or with a whole source.
#[derive(Clone, Copy, Debug)]
pub enum AsmCause {
    BadByte,
    UnknownName,
    BadOperand,
    Range,
    LabelTwice,
    LabelMissing,
    NoCode,
    TooMuch,
}

impl AsmCause {
    /// What is wrong, and what to do.
    fn text(self) -> &'static str {
        match self {
            AsmCause::BadByte => {
                "a byte begins no token, or a token is cut wrongly; \
                 look for a stray mark, or a blank that is missing"
            }
            AsmCause::UnknownName => {
                "no statement and no register has this name; look it up in docs/MACHINE.md"
            }
            AsmCause::BadOperand => {
                "another operand is wanted, one is missing or one too many, or the statement \
                 stands in the other part; compare with its operands in docs/MACHINE.md, or write \
                 .text or .data before it"
            }
            AsmCause::Range => {
                "a number is out of its bounds or no multiple of 4, a segment begins too low or \
                 too high, or a label is too far; the bounds stand in docs/MACHINE.md"
            }
            AsmCause::LabelTwice => "the label stands before too; rename one of them",
            AsmCause::LabelMissing => {
                "no line has the label that is named here; write it, or mend its spelling"
            }
            AsmCause::NoCode => "the source has no instruction; write one",
            AsmCause::TooMuch => {
                "the instruction is one of more than 65,536 words, or a word lies past the memory; \
                 shorten the program, move its data, or enlarge the memory"
            }
        }
    }
}

impl Display for AsmCause {
    fn fmt<W: Write>(&self, f: &mut Formatter<W>) -> fmt::Result {
        f.write_str(self.text())
    }
}

impl Error for AsmCause {}

/// Why there is no image of a source: the cause, and the number of the first faulty line, or 0 where no line is at fault.
pub type AsmFault = FaultAt<AsmCause>;

/// What is wrong with a line whose number isn't known.
pub type LineFault = Fault<AsmCause>;

impl From<AsmCause> for LineFault {
    ghost from_gives = { λ cause e. e ≡ Cause cause };

    fn from(cause: AsmCause) -> LineFault {
        Fault::Cause(cause)
    }
}
