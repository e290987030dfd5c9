//! How a call of the program ends.
ghost use Rattle.std.specs.Prelude.{◌≡◌};
ghost use Rattle.std.specs.List.{list_all};
ghost use Rattle.timetable.specs.Outcome.{is_halt};
ghost use Rattle.kmp_call.specs.Status.{code_of, after_write, status_of};

use kmp_base::WriteFault;
use kmp_words::{Refusal, WordFault};
use report_text::Report;
use std::error::Error;
use std::fmt::{self, Display, Formatter, Write};
use timetable::CoreEnd;

/// How a call ends: where it isn't as it was asked for, what is wrong and what to do.
#[derive(Clone, Copy, Debug)]
pub enum Status {
    /// Every core ended at a `halt`, or what else was asked for was written.
    Done,
    /// A core ended otherwise.
    OtherEnd,
    WordsRefused(WordFault),
    InputRefused(Refusal),
    /// The number of the first row that doesn't go on as a report, counted from 1.
    ReportRefused(u32),
    ReadFault,
    WriteFault,
    NoMemory,
    /// A report isn't right, from the row of this number on, counted from 1.
    Differs(u32),
    WordsUnreadable,
}

impl Display for Status {
    fn fmt<W: Write>(&self, f: &mut Formatter<W>) -> fmt::Result {
        match self {
            Status::Done => f.write_str("what was asked for was written"),
            Status::OtherEnd => f.write_str("a core ended otherwise than at a halt"),
            Status::WordsRefused(fault) => write!(f, "{fault}"),
            Status::InputRefused(refusal) => write!(f, "{refusal}"),
            Status::ReportRefused(line) => write!(
                f,
                "line {line}: the rows before it may begin a report, and with it they may not, or \
                 it is missing; docs/FORMATS.md says what a report may say"
            ),
            Status::ReadFault => f.write_str(
                "the input could not be read, and nothing was written; \
                 hand over a file or a pipe that can be read",
            ),
            Status::WriteFault => f.write_str(
                "the output could not be written, and what stands there is a front of it; \
                 make room there, or write to another place",
            ),
            Status::NoMemory => f.write_str(
                "there is too little memory, and nothing was written; \
                 allow more, or ask for less by --memory, --cores or --budget",
            ),
            Status::Differs(line) => write!(
                f,
                "line {line} of the report isn't right; the row on standard output says its \
                 field, what stands there (kept) and what is due (found)"
            ),
            Status::WordsUnreadable => f.write_str(
                "the system could not hand over the words, and nothing was done; \
                 spell each of them in UTF-8",
            ),
        }
    }
}

impl Error for Status {}

impl Status {
    /// The number that the program exits with.
    pub fn code(self) -> u8
        ensures code { result ≡ code_of self }
    {
        match self {
            Status::Done => 0,
            Status::OtherEnd => 1,
            Status::WordsRefused(_) => 2,
            Status::InputRefused(_) => 3,
            Status::ReportRefused(_) => 3,
            Status::ReadFault => 4,
            Status::WriteFault => 5,
            Status::NoMemory => 6,
            Status::Differs(_) => 7,
            Status::WordsUnreadable => 8,
        }
    }

    /// The status behind a write: this one, or a write fault.
    pub fn after_write(self, written: Result<(), WriteFault>) -> Status
        ensures status { result ≡ after_write self written }
    {
        match written {
            Ok(()) => self,
            Err(WriteFault) => Status::WriteFault,
        }
    }
}

fn all_halt(cores: &[CoreEnd]) -> bool
    ensures { result ≡ list_all (λ core. is_halt core.end) cores.now }
{
    cores.iter().all(|core| core.end.is_halt())
}

/// The status of a report that was written whole.
#[tactic(auto, using(crate::proofs::StatusLemmas::halts_told))]
pub fn status_of(report: &Report) -> Status
    ensures status { result ≡ status_of report.now }
{
    if all_halt(&report.cores) {
        Status::Done
    } else {
        Status::OtherEnd
    }
}
