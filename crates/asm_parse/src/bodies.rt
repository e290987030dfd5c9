//! What statements are, by what stands behind their names.
ghost use Rattle.std.specs.Prelude.{◌≡◌, ◌<◌, [], ◌∷◌, option_to_list, IfOk, IfSome, IsTrue, All};
ghost use Rattle.mips_isa.specs.Words.{IsProper};
ghost use Rattle.kmp_base.specs.Gives.{Gives};
ghost use Rattle.asm_parse.specs.Bounds.{is_within};
ghost use Rattle.asm_parse.specs.Forms.{kinds_of};
ghost use Rattle.asm_parse.specs.Operands.{operands_in, AreRegisters};
ghost use Rattle.asm_parse.specs.Statements.{number_of, lower_half, branch, jump, body_of, lone_number_in, data_in, space_in, words_in, statement_in, IsBranch, IsProperBody};

use crate::bounds::{ADDRESS, Bounds, SPACE, WORD};
use crate::forms::Form;
use crate::operands::{Operands, comma_in, end_in, number_in, operands_in, place_in};
use crate::statement::{Body, Value};
use asm_token::{AsmCause, LineFault, Number, Token};
use mips_isa::{AluOp, ImmOp, Instr, ShiftOp};
use std::alloc::{AllocError, Global};

const NOP: Instr = Instr::Shift {
    op: ShiftOp::Sll,
    rd: 0,
    rt: 0,
    sa: 0,
};

impl Value<'_> {
    /// The number. A label has none, and gives 0.
    fn number(&self) -> u32
        ensures value { result ≡ number_of self.now }
    {
        match self {
            Value::Number(number) => *number,
            Value::Of(_) => 0,
        }
    }
}

fn lower_half(number: u32) -> u16
    ensures value { result ≡ lower_half number }
{
    (number % (1 << 16)) as u16
}

fn branch_two(differ: bool, rs: u8, rt: u8, imm: u16) -> Instr
    ensures value { result ≡ Instr.BranchTwo differ rs rt imm }
{
    Instr::BranchTwo {
        differ,
        rs,
        rt,
        imm,
    }
}

/// A branch to a label, or by the immediate that it holds.
fn branch<'a>(instr: Instr, value: Value<'a>) -> Body<'a>
    requires proper { IsProper instr }
    requires branch { IsBranch instr }
    ensures value { result ≡ branch instr value.entry }
    ensures proper { IsProperBody result }
{
    match value {
        Value::Number(_) => Body::Plain(instr),
        Value::Of(label) => Body::BranchTo(instr, label),
    }
}

/// A jump to a label, or to a byte address.
fn jump<'a>(link: bool, value: Value<'a>) -> Body<'a>
    ensures value { result ≡ jump link value.entry }
    ensures proper { IsProperBody result }
{
    match value {
        Value::Number(address) => Body::Plain(Instr::Jump {
            link,
            index: address / 4 % (1 << 26),
        }),
        Value::Of(label) => Body::JumpTo(link, label),
    }
}

/// One register's word into another.
fn move_register(rd: u8, rs: u8) -> Body<'static>
    requires rd { rd < 32 }
    requires rs { rs < 32 }
    ensures value { result ≡ Body.Plain (Instr.Alu AluOp.Addu rd rs 0) }
    ensures proper { IsProperBody result }
{
    Body::Plain(Instr::Alu {
        op: AluOp::Addu,
        rd,
        rs,
        rt: 0,
    })
}

/// None or one, as a list.
fn none_or_one<'a>(alloc: Global, body: Option<Body<'a>>) -> Result<Vec<Body<'a>>, AllocError>
    requires proper { IfSome body IsProperBody }
    ensures value { IfOk result (λ v. v.items ≡ option_to_list body.entry) }
    ensures proper { IfOk result (λ v. All IsProperBody v.items) }
{
    let mut bodies = Vec::new(alloc);
    if let Some(body) = body {
        bodies.push(body)?;
    }
    Ok(bodies)
}

/// What a statement is, by its operands. `.globl` is nothing.
#[tactic(auto, unfolding(crate::specs::Statements::body_of))]
fn body_of<'a>(form: Form, operands: Operands<'a>) -> Option<Body<'a>>
    requires registers { AreRegisters operands }
    ensures value { result ≡ body_of form operands.entry }
    ensures proper { IfSome result IsProperBody }
{
    let number = operands.value.number();
    let imm = lower_half(number);
    let sa = (number % 32) as u8;
    let Operands { rd, rs, rt, value } = operands;
    let body = match form {
        Form::Shift(op) => Body::Plain(Instr::Shift { op, rd, rt, sa }),
        Form::ShiftBy(op) => Body::Plain(Instr::ShiftBy { op, rd, rt, rs }),
        Form::Alu(op) => Body::Plain(Instr::Alu { op, rd, rs, rt }),
        Form::Signed(op) | Form::Unsigned(op) => Body::Plain(Instr::AluImm { op, rt, rs, imm }),
        Form::Lui => Body::Plain(Instr::Lui { rt, imm }),
        Form::BranchTwo(differ) => branch(branch_two(differ, rs, rt, imm), value),
        Form::BranchZero(op) => branch(Instr::BranchZero { op, rs, imm }, value),
        Form::Jump(link) => jump(link, value),
        Form::JumpReg => Body::Plain(Instr::JumpReg { rs }),
        Form::JumpLink => Body::Plain(Instr::JumpLink { rd, rs }),
        Form::Lw => Body::Plain(Instr::Lw { rt, rs, imm }),
        Form::Sw => Body::Plain(Instr::Sw { rt, rs, imm }),
        Form::Cas => Body::Plain(Instr::Cas { rd, rs, rt }),
        Form::Halt => Body::Plain(Instr::Halt),
        Form::Nop => Body::Plain(NOP),
        Form::Move => move_register(rd, rs),
        Form::Branch => branch(branch_two(false, 0, 0, imm), value),
        Form::Li | Form::La => Body::Load(rt, value),
        Form::Text => Body::Text,
        Form::Data => Body::Data,
        Form::Word | Form::Space | Form::Globl => return None,
    };
    Some(body)
}

/// A number alone.
fn lone_number_in(bounds: Bounds, tokens: &[Token<'_>]) -> Result<Number, AsmCause>
    ensures value { result ≡ lone_number_in bounds tokens.now }
    ensures within { IfOk result (λ n. IsTrue (is_within bounds n)) }
{
    let (number, rest) = number_in(bounds, tokens)?;
    end_in(number, rest)
}

/// What follows `.data`: nothing, or where a segment starts.
fn data_in(tokens: &[Token<'_>]) -> Result<Body<'static>, AsmCause>
    ensures value { result ≡ data_in tokens.now }
    ensures proper { IfOk result IsProperBody }
{
    if tokens.is_empty() {
        Ok(Body::Data)
    } else {
        Ok(Body::DataAt(lone_number_in(ADDRESS, tokens)?.word()))
    }
}

/// What follows `.space`: a number of bytes.
fn space_in(tokens: &[Token<'_>]) -> Result<Body<'static>, AsmCause>
    ensures value { result ≡ space_in tokens.now }
    ensures proper { IfOk result IsProperBody }
{
    let bytes = lone_number_in(SPACE, tokens)?;
    Ok(Body::Space(bytes.word()))
}

/// What follows `.word`: one value or more, a comma between each two.
fn words_in<'a>(alloc: Global, tokens: &[Token<'a>]) -> Result<Vec<Body<'a>>, LineFault>
    ensures value { Gives (λ v. v.items) result (words_in tokens.now) }
    ensures proper { IfOk result (λ v. All IsProperBody v.items) }
{
    let (first, others) = place_in(WORD, tokens)?;
    let mut words = Vec::new(alloc);
    words.push(Body::Word(first))?;
    let mut rest = others;
    'words: while !rest.is_empty() {
        let (value, behind) = place_in(WORD, comma_in(rest)?)?;
        words.push(Body::Word(value))?;
        rest = behind;
    }
    Ok(words)
}

/// The operands of a statement.
fn operands_of<'a>(form: Form, tokens: &[Token<'a>]) -> Result<Operands<'a>, AsmCause>
    ensures value { result ≡ operands_in (kinds_of form) tokens.now }
    ensures registers { IfOk result (λ o. AreRegisters o) }
{
    operands_in(form.kinds(), tokens)
}

/// What a statement is, by the tokens behind its name.
#[tactic(auto, unfolding(crate::specs::Statements::statement_in))]
pub fn statement_in<'a>(
    alloc: Global,
    form: Form,
    tokens: &[Token<'a>],
) -> Result<Vec<Body<'a>>, LineFault>
    ensures value { Gives (λ v. v.items) result (statement_in form tokens.now) }
    ensures proper { IfOk result (λ v. All IsProperBody v.items) }
{
    match form {
        Form::Data => Ok(none_or_one(alloc, Some(data_in(tokens)?))?),
        Form::Word => words_in(alloc, tokens),
        Form::Space => Ok(none_or_one(alloc, Some(space_in(tokens)?))?),
        _ => {
            let operands = operands_of(form, tokens)?;
            Ok(none_or_one(alloc, body_of(form, operands))?)
        }
    }
}
