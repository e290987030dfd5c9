//! The statements that there are.
ghost use Rattle.std.specs.Prelude.{◌≡◌, [], ◌∷◌, IfSome, IfNone};
ghost use Rattle.asm_parse.specs.Forms.{form_of};

use crate::bounds::{AMOUNT, Bounds, SIGNED, TARGET, UNSIGNED, WORD};
use crate::statement::Part;
use kmp_base::named;
use mips_isa::{AluOp, ImmOp, ShiftOp, ZeroOp};

/// What follows a statement's name, and what the statement is.
#[derive(Clone, Copy)]
pub enum Form {
    /// A shift by an amount.
    Shift(ShiftOp),
    /// A shift by a register.
    ShiftBy(ShiftOp),
    /// An instruction over three registers.
    Alu(AluOp),
    /// An instruction over a register and a signed immediate.
    Signed(ImmOp),
    /// An instruction over a register and an immediate without a sign.
    Unsigned(ImmOp),
    Lui,
    /// A branch that compares two registers, and whether it is taken where they differ.
    BranchTwo(bool),
    /// A branch that compares a register with 0.
    BranchZero(ZeroOp),
    /// A jump to a place, and whether it links.
    Jump(bool),
    JumpReg,
    JumpLink,
    Lw,
    Sw,
    Cas,
    Halt,
    Nop,
    Move,
    /// A branch that is always taken.
    Branch,
    Li,
    La,
    Text,
    Data,
    Word,
    Space,
    Globl,
}

/// The register field that an operand fills.
#[derive(Clone, Copy)]
pub enum Slot {
    Rd,
    Rs,
    Rt,
}

/// What stands in an operand's place.
#[derive(Clone, Copy)]
pub enum Kind {
    Register(Slot),
    Number(Bounds),
    /// A label, or a number.
    Place(Bounds),
    Label,
    /// An offset that may be left out, and a register in parentheses.
    Address,
    /// The register to jump to, behind one for the return address that may be left out.
    Link,
}

/// The operands of a statement, from the left.
#[derive(Clone, Copy)]
pub enum Kinds {
    None,
    One(Kind),
    Two(Kind, Kind),
    Three(Kind, Kind, Kind),
}

impl Kinds {
    ghost use Rattle.asm_parse.specs.Forms.{list_of};

    /// The first, and those behind it.
    pub fn split_first(self) -> Option<(Kind, Kinds)>
        ensures some { IfSome result (λ split. list_of self ≡ split.0 ∷ list_of split.1) }
        ensures none { IfNone result (list_of self ≡ []) }
    {
        match self {
            Kinds::None => None,
            Kinds::One(first) => Some((first, Kinds::None)),
            Kinds::Two(first, second) => Some((first, Kinds::One(second))),
            Kinds::Three(first, second, third) => Some((first, Kinds::Two(second, third))),
        }
    }
}

const RD: Kind = Kind::Register(Slot::Rd);

const RS: Kind = Kind::Register(Slot::Rs);

const RT: Kind = Kind::Register(Slot::Rt);

impl Form {
    ghost use Rattle.asm_parse.specs.Forms.{kinds_of, list_of, stands_in, part_behind};

    /// The operands, from the left. Those of `.data`, `.word` and `.space` are read apart.
    pub fn kinds(self) -> Kinds
        ensures kinds { list_of result ≡ kinds_of self }
    {
        match self {
            Form::Shift(_) => Kinds::Three(RD, RT, Kind::Number(AMOUNT)),
            Form::ShiftBy(_) => Kinds::Three(RD, RT, RS),
            Form::Alu(_) | Form::Cas => Kinds::Three(RD, RS, RT),
            Form::Signed(_) => Kinds::Three(RT, RS, Kind::Number(SIGNED)),
            Form::Unsigned(_) => Kinds::Three(RT, RS, Kind::Number(UNSIGNED)),
            Form::Lui => Kinds::Two(RT, Kind::Number(UNSIGNED)),
            Form::BranchTwo(_) => Kinds::Three(RS, RT, Kind::Place(SIGNED)),
            Form::BranchZero(_) => Kinds::Two(RS, Kind::Place(SIGNED)),
            Form::Jump(_) => Kinds::One(Kind::Place(TARGET)),
            Form::JumpReg => Kinds::One(RS),
            Form::JumpLink => Kinds::One(Kind::Link),
            Form::Lw | Form::Sw => Kinds::Two(RT, Kind::Address),
            Form::Move => Kinds::Two(RD, RS),
            Form::Branch => Kinds::One(Kind::Place(SIGNED)),
            Form::Li => Kinds::Two(RT, Kind::Number(WORD)),
            Form::La => Kinds::Two(RT, Kind::Place(WORD)),
            Form::Globl => Kinds::One(Kind::Label),
            Form::Halt | Form::Nop | Form::Text | Form::Data | Form::Word | Form::Space =>
                Kinds::None,
        }
    }

    /// Whether a statement may stand in a part.
    pub fn stands_in(self, part: Part) -> bool
        ensures value { result ≡ stands_in self part }
    {
        match self {
            Form::Text | Form::Data | Form::Globl => true,
            Form::Word | Form::Space => part == Part::Data,
            _ => part == Part::Text,
        }
    }

    /// The part that is in force behind a statement.
    pub fn part_behind(self, part: Part) -> Part
        ensures part { result ≡ part_behind self part }
    {
        match self {
            Form::Text => Part::Text,
            Form::Data => Part::Data,
            _ => part,
        }
    }
}

const FORMS: [(&str, Form); 48] = [
    ("sll", Form::Shift(ShiftOp::Sll)),
    ("srl", Form::Shift(ShiftOp::Srl)),
    ("sra", Form::Shift(ShiftOp::Sra)),
    ("sllv", Form::ShiftBy(ShiftOp::Sll)),
    ("srlv", Form::ShiftBy(ShiftOp::Srl)),
    ("srav", Form::ShiftBy(ShiftOp::Sra)),
    ("add", Form::Alu(AluOp::Add)),
    ("addu", Form::Alu(AluOp::Addu)),
    ("sub", Form::Alu(AluOp::Sub)),
    ("subu", Form::Alu(AluOp::Subu)),
    ("and", Form::Alu(AluOp::And)),
    ("or", Form::Alu(AluOp::Or)),
    ("xor", Form::Alu(AluOp::Xor)),
    ("nor", Form::Alu(AluOp::Nor)),
    ("slt", Form::Alu(AluOp::Slt)),
    ("sltu", Form::Alu(AluOp::Sltu)),
    ("addi", Form::Signed(ImmOp::Addi)),
    ("addiu", Form::Signed(ImmOp::Addiu)),
    ("slti", Form::Signed(ImmOp::Slti)),
    ("sltiu", Form::Signed(ImmOp::Sltiu)),
    ("andi", Form::Unsigned(ImmOp::Andi)),
    ("ori", Form::Unsigned(ImmOp::Ori)),
    ("xori", Form::Unsigned(ImmOp::Xori)),
    ("lui", Form::Lui),
    ("beq", Form::BranchTwo(false)),
    ("bne", Form::BranchTwo(true)),
    ("bltz", Form::BranchZero(ZeroOp::Bltz)),
    ("bgez", Form::BranchZero(ZeroOp::Bgez)),
    ("blez", Form::BranchZero(ZeroOp::Blez)),
    ("bgtz", Form::BranchZero(ZeroOp::Bgtz)),
    ("j", Form::Jump(false)),
    ("jal", Form::Jump(true)),
    ("jr", Form::JumpReg),
    ("jalr", Form::JumpLink),
    ("lw", Form::Lw),
    ("sw", Form::Sw),
    ("cas", Form::Cas),
    ("halt", Form::Halt),
    ("nop", Form::Nop),
    ("move", Form::Move),
    ("b", Form::Branch),
    ("li", Form::Li),
    ("la", Form::La),
    (".text", Form::Text),
    (".data", Form::Data),
    (".word", Form::Word),
    (".space", Form::Space),
    (".globl", Form::Globl),
];

/// The statement of a name.
pub fn form_of(name: &[u8]) -> Option<Form>
    ensures form { result ≡ form_of name.now }
{
    named(&FORMS, name)
}
