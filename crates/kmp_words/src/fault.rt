//! What is wrong with the words of the command line.
use crate::input::Refusal;
use crate::program::Program;
use std::error::Error;
use std::fmt::{self, Display, Formatter, Write};

/// What is wrong with a word.
#[derive(Clone, Copy, Debug)]
pub enum WordCause {
    /// There is no word, where a command of the program is due.
    NoCommand(Program),
    /// The word is no command of the program.
    UnknownCommand(Program),
    UnknownOption,
    OptionTwice,
    BadValue,
    Excluded,
}

impl WordCause {
    /// What is wrong, and what to do.
    fn text(self) -> &'static str {
        match self {
            WordCause::NoCommand(Program::Kmp) =>
                "there is no command; write run, asm, replay or trial",
            WordCause::NoCommand(Program::KmpMp) => "there is no command; write run",
            WordCause::UnknownCommand(Program::Kmp) => {
                "there is no such command; write run, asm, replay or trial"
            }
            WordCause::UnknownCommand(Program::KmpMp) => "there is no such command; write run",
            WordCause::UnknownOption => {
                "the command has no option of this name; --help alone lists them"
            }
            WordCause::OptionTwice => "the option stands before too; leave one out",
            WordCause::BadValue => {
                "the value is missing, isn't one of the option's, or is one too many; \
                 --help alone lists them"
            }
            WordCause::Excluded => "--memory and --image don't stand together; leave one out",
        }
    }
}

impl Display for WordCause {
    fn fmt<W: Write>(&self, f: &mut Formatter<W>) -> fmt::Result {
        f.write_str(self.text())
    }
}

impl Error for WordCause {}

/// Why the words have no meaning, and the number of the faulty word, counted from 1.
#[derive(Clone, Copy, Debug, thiserror::Error)]
#[error("word {word}: {cause}")]
pub struct WordFault {
    pub cause: WordCause,
    pub word: u32,
}

impl WordCause {
    ghost use Rattle.std.specs.Prelude.{◌≡◌};
    ghost use Rattle.kmp_words.specs.Words.{at_word};

    /// The fault at the word of this number.
    pub(crate) fn at(self, word: u32) -> WordFault
        ensures value { result ≡ at_word self word }
    {
        WordFault { cause: self, word }
    }
}

impl Display for Refusal {
    fn fmt<W: Write>(&self, f: &mut Formatter<W>) -> fmt::Result {
        match self {
            Refusal::TooLong(limit) => {
                write!(f, "the input has more than {limit} bytes; shorten it")
            }
            // no line of the source is at fault
            Refusal::Asm(cause, 0) => write!(f, "{cause}"),
            Refusal::Asm(cause, line) => write!(f, "line {line}: {cause}"),
            Refusal::Image(cause, byte) => write!(f, "byte {byte}: {cause}"),
        }
    }
}

impl Error for Refusal {}
