//! The operands of statements.
ghost use Rattle.std.specs.Prelude.{◌≡◌, ◌<◌, length, IfOk, IsTrue};
ghost use Rattle.kmp_base.specs.Gives.{Returns};
ghost use Rattle.asm_parse.specs.Bounds.{is_within};
ghost use Rattle.asm_parse.specs.Forms.{list_of};
ghost use Rattle.asm_parse.specs.Operands.{register_in, number_in, label_in, comma_in, open_in, close_in, end_in, value_of, place_in, offset_in, with_register, with_operand, address_in, second_register, link_in, operand_in, more_operands_in, operands_in, no_operands, AreRegisters, IsOperand};

use crate::bounds::{Bounds, SIGNED};
use crate::forms::{Kind, Kinds, Slot};
use crate::registers::register_of;
use crate::statement::Value;
use asm_token::{AsmCause, Number, Token};

/// What the operands of a statement say. A field that no operand fills is 0.
#[derive(Drop)]
pub struct Operands<'a> {
    pub rd: u8,
    pub rs: u8,
    pub rt: u8,
    pub value: Value<'a>,
}

/// What an operand says.
#[derive(Drop)]
pub enum Operand<'a> {
    Register(Slot, u8),
    Value(Value<'a>),
    /// An offset, and the register to which it is added.
    Address(u32, u8),
    /// The registers rd and rs of a link.
    Link(u8, u8),
}

fn register_in<'t, 'a>(tokens: &'t [Token<'a>]) -> Result<(u8, &'t [Token<'a>]), AsmCause>
    ensures value { Returns (λ r. (r.0, r.1.now)) result (register_in tokens.now) }
    ensures bound { IfOk result (λ r. r.0 < 32) }
{
    match tokens.split_first() {
        Some((Token::Register(name), rest)) => match register_of(name.as_slice()) {
            Some(register) => Ok((register, rest)),
            None => Err(AsmCause::UnknownName),
        },
        _ => Err(AsmCause::BadOperand),
    }
}

pub fn number_in<'t, 'a>(
    bounds: Bounds,
    tokens: &'t [Token<'a>],
) -> Result<(Number, &'t [Token<'a>]), AsmCause>
    ensures value { Returns (λ n. (n.0, n.1.now)) result (number_in bounds tokens.now) }
    ensures within { IfOk result (λ n. IsTrue (is_within bounds n.0)) }
{
    match tokens.split_first() {
        Some((Token::Number(number), rest)) => {
            if bounds.admits(*number) {
                Ok((*number, rest))
            } else {
                Err(AsmCause::Range)
            }
        }
        _ => Err(AsmCause::BadOperand),
    }
}

fn label_in<'t, 'a>(tokens: &'t [Token<'a>]) -> Result<(Operand<'a>, &'t [Token<'a>]), AsmCause>
    ensures value { Returns (λ o. (o.0, o.1.now)) result (label_in tokens.now) }
    ensures operand { IfOk result (λ o. IsOperand o.0) }
{
    match tokens.split_first() {
        Some((Token::Name(label), rest)) => { Ok((Operand::Value(Value::Of(label.copy())), rest)) }
        _ => Err(AsmCause::BadOperand),
    }
}

pub fn comma_in<'t, 'a>(tokens: &'t [Token<'a>]) -> Result<&'t [Token<'a>], AsmCause>
    ensures value { Returns (λ rest. rest.now) result (comma_in tokens.now) }
    ensures shorter { IfOk result (λ rest. length rest.now < length tokens.now) }
{
    match tokens {
        [Token::Comma, rest @ ..] => Ok(rest),
        _ => Err(AsmCause::BadOperand),
    }
}

fn open_in<'t, 'a>(tokens: &'t [Token<'a>]) -> Result<&'t [Token<'a>], AsmCause>
    ensures value { Returns (λ rest. rest.now) result (open_in tokens.now) }
{
    match tokens {
        [Token::Open, rest @ ..] => Ok(rest),
        _ => Err(AsmCause::BadOperand),
    }
}

fn close_in<'t, 'a>(tokens: &'t [Token<'a>]) -> Result<&'t [Token<'a>], AsmCause>
    ensures value { Returns (λ rest. rest.now) result (close_in tokens.now) }
{
    match tokens {
        [Token::Close, rest @ ..] => Ok(rest),
        _ => Err(AsmCause::BadOperand),
    }
}

/// What was read, where nothing stands behind it.
pub fn end_in<T: Drop>(read: T, tokens: &[Token<'_>]) -> Result<T, AsmCause>
    ensures value { result ≡ end_in read tokens.now }
    ensures same { IfOk result (λ x. x ≡ read) }
{
    if tokens.is_empty() {
        Ok(read)
    } else {
        Err(AsmCause::BadOperand)
    }
}

/// A label or a number, as one token.
fn value_of<'a>(bounds: Bounds, token: &Token<'a>) -> Result<Value<'a>, AsmCause>
    ensures value { result ≡ value_of bounds token.now }
{
    match token {
        Token::Name(label) => Ok(Value::Of(label.copy())),
        Token::Number(number) => {
            if bounds.admits(*number) {
                Ok(Value::Number(number.word()))
            } else {
                Err(AsmCause::Range)
            }
        }
        _ => Err(AsmCause::BadOperand),
    }
}

/// A label or a number at the front.
pub fn place_in<'t, 'a>(
    bounds: Bounds,
    tokens: &'t [Token<'a>],
) -> Result<(Value<'a>, &'t [Token<'a>]), AsmCause>
    ensures value { Returns (λ v. (v.0, v.1.now)) result (place_in bounds tokens.now) }
    ensures shorter { IfOk result (λ v. length v.1.now < length tokens.now) }
{
    match tokens {
        [token, rest @ ..] => Ok((value_of(bounds, token)?, rest)),
        [] => Err(AsmCause::BadOperand),
    }
}

/// An offset, or 0 where it is left out.
fn offset_in<'t, 'a>(tokens: &'t [Token<'a>]) -> Result<(u32, &'t [Token<'a>]), AsmCause>
    ensures value { Returns (λ n. (n.0, n.1.now)) result (offset_in tokens.now) }
{
    match tokens {
        [Token::Open, ..] => Ok((0, tokens)),
        _ => {
            let (number, rest) = number_in(SIGNED, tokens)?;
            Ok((number.word(), rest))
        }
    }
}

impl<'a> Operands<'a> {
    /// The operands before the first is read.
    fn none() -> Operands<'a>
        ensures value { result ≡ no_operands }
    {
        Operands {
            rd: 0,
            rs: 0,
            rt: 0,
            value: Value::Number(0),
        }
    }

    fn with_register(self, slot: Slot, register: u8) -> Operands<'a>
        requires registers { AreRegisters self }
        requires register { register < 32 }
        ensures value { result ≡ with_register slot register self.entry }
        ensures registers { AreRegisters result }
    {
        match slot {
            Slot::Rd => Operands {
                rd: register,
                ..self
            },
            Slot::Rs => Operands {
                rs: register,
                ..self
            },
            Slot::Rt => Operands {
                rt: register,
                ..self
            },
        }
    }

    /// One operand more.
    fn with(self, operand: Operand<'a>) -> Operands<'a>
        requires registers { AreRegisters self }
        requires operand { IsOperand operand }
        ensures value { result ≡ with_operand operand.entry self.entry }
        ensures registers { AreRegisters result }
    {
        match operand {
            Operand::Register(slot, register) => self.with_register(slot, register),
            Operand::Value(value) => Operands { value, ..self },
            Operand::Address(offset, rs) => Operands {
                rs,
                value: Value::Number(offset),
                ..self
            },
            Operand::Link(rd, rs) => Operands { rd, rs, ..self },
        }
    }
}

/// `offset(rs)`.
#[tactic(auto, unfolding(crate::specs::Operands::address_in))]
fn address_in<'t, 'a>(tokens: &'t [Token<'a>]) -> Result<(Operand<'a>, &'t [Token<'a>]), AsmCause>
    ensures value { Returns (λ o. (o.0, o.1.now)) result (address_in tokens.now) }
    ensures operand { IfOk result (λ o. IsOperand o.0) }
{
    let (offset, rest) = offset_in(tokens)?;
    let (base, rest) = register_in(open_in(rest)?)?;
    Ok((Operand::Address(offset, base), close_in(rest)?))
}

/// A link whose first register was read.
fn second_register<'t, 'a>(
    first: u8,
    tokens: &'t [Token<'a>],
) -> Result<(Operand<'a>, &'t [Token<'a>]), AsmCause>
    requires first { first < 32 }
    ensures value { Returns (λ o. (o.0, o.1.now)) result (second_register first tokens.now) }
    ensures operand { IfOk result (λ o. IsOperand o.0) }
{
    match tokens {
        [Token::Comma, rest @ ..] => {
            let (second, rest) = register_in(rest)?;
            Ok((Operand::Link(first, second), rest))
        }
        _ => Ok((Operand::Link(31, first), tokens)),
    }
}

/// `rd, rs`, or `rs` where rd is register 31.
#[tactic(auto, unfolding(crate::specs::Operands::link_in))]
fn link_in<'t, 'a>(tokens: &'t [Token<'a>]) -> Result<(Operand<'a>, &'t [Token<'a>]), AsmCause>
    ensures value { Returns (λ o. (o.0, o.1.now)) result (link_in tokens.now) }
    ensures operand { IfOk result (λ o. IsOperand o.0) }
{
    let (first, rest) = register_in(tokens)?;
    second_register(first, rest)
}

/// An operand of a kind at the front.
#[tactic(auto, unfolding(crate::specs::Operands::operand_in))]
fn operand_in<'t, 'a>(
    kind: Kind,
    tokens: &'t [Token<'a>],
) -> Result<(Operand<'a>, &'t [Token<'a>]), AsmCause>
    ensures value { Returns (λ o. (o.0, o.1.now)) result (operand_in kind tokens.now) }
    ensures operand { IfOk result (λ o. IsOperand o.0) }
{
    match kind {
        Kind::Register(slot) => {
            let (register, rest) = register_in(tokens)?;
            Ok((Operand::Register(slot, register), rest))
        }
        Kind::Number(bounds) => {
            let (number, rest) = number_in(bounds, tokens)?;
            Ok((Operand::Value(Value::Number(number.word())), rest))
        }
        Kind::Place(bounds) => {
            let (value, rest) = place_in(bounds, tokens)?;
            Ok((Operand::Value(value), rest))
        }
        Kind::Label => label_in(tokens),
        Kind::Address => address_in(tokens),
        Kind::Link => link_in(tokens),
    }
}

/// Operands of these kinds, a comma between each two, and nothing behind them.
#[tactic(auto, unfolding(crate::specs::Operands::operands_in, crate::specs::Operands::more_operands_in))]
pub fn operands_in<'a>(kinds: Kinds, tokens: &[Token<'a>]) -> Result<Operands<'a>, AsmCause>
    ensures value { result ≡ operands_in (list_of kinds) tokens.now }
    ensures registers { IfOk result (λ o. AreRegisters o) }
{
    let Some((kind, others)) = kinds.split_first() else {
        return end_in(Operands::none(), tokens);
    };
    let (first, behind) = operand_in(kind, tokens)?;
    let mut operands = Operands::none().with(first);
    let mut rest = behind;
    let mut left = others;
    'operands: while let Some((kind, others)) = left.split_first() {
        let (operand, behind) = operand_in(kind, comma_in(rest)?)?;
        operands = operands.with(operand);
        rest = behind;
        left = others;
    }
    end_in(operands, rest)
}
