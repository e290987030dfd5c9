//! Statements.

use asm_token::Name;
use mips_isa::Instr;

/// A part of the program.
#[derive(Clone, Copy, PartialEq, Eq)]
pub enum Part {
    /// Instructions.
    Text,
    /// Words of data.
    Data,
}

/// A word, or the label whose address it is.
#[derive(Drop)]
pub enum Value<'a> {
    Number(u32),
    Of(Name<'a>),
}

/// What a statement is. A line has one for each label, one for each operand of `.word`, none for `.globl`, and one for each
/// other statement.
#[derive(Drop)]
pub enum Body<'a> {
    Label(Name<'a>),
    /// `.text`: the text part is in force.
    Text,
    /// `.data` without an address: the data part is in force, and goes on in the last segment.
    Data,
    /// `.data` with a byte address, at which a segment begins.
    DataAt(u32),
    /// A word of data.
    Word(Value<'a>),
    /// A number of bytes of data, each 0.
    Space(u32),
    /// An instruction that names no label.
    Plain(Instr),
    /// A branch, without its immediate, to a label.
    BranchTo(Instr, Name<'a>),
    /// A jump to a label, and whether it links.
    JumpTo(bool, Name<'a>),
    /// Two instructions that load a value into a register, its upper half first: `li`, or `la`.
    Load(u8, Value<'a>),
}

/// A statement of a source.
#[derive(Drop)]
pub struct Statement<'a> {
    /// The number of its line. The first line of a source has the number 1.
    pub line: u32,
    pub body: Body<'a>,
}
