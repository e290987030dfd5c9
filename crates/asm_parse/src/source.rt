//! The statements of a text.
ghost use Rattle.std.specs.Prelude.{List, ◌≡◌, ◌<◌, ◌≤◌, ◌∷◌, ◌++◌, map, length, OnOk, IfOk, IfErr};
ghost use Rattle.std.specs.List.{prefix_len};
ghost use Rattle.kmp_base.specs.Gives.{FailsAt, GivesAt};
ghost use Rattle.asm_token.specs.Faults.{at_line};
ghost use Rattle.asm_parse.specs.Lines.{is_within_line, lines_of, on_line, line_of, statements_of, AreRising};
ghost use Rattle.asm_parse.specs.Statements.{IsProperBody, AreProper};

use crate::lines::line_of;
use crate::statement::{Body, Part, Statement};
use asm_token::AsmFault;
use kmp_base::Fault;
use std::alloc::{AllocError, Global};

fn is_within_line(byte: u8) -> bool
    ensures value { result ≡ is_within_line byte }
{
    byte != b'\n'
}

/// How many bytes stand before the first line feed.
fn line_len(text: &[u8]) -> usize
    ensures value { result ≡ prefix_len is_within_line text.now }
    ensures bound { result ≤ length text.now }
{
    text.iter().take_while(|b| is_within_line(**b)).count()
}

/// The first line, and what stands behind its line feed.
fn split_line(text: &[u8]) -> (&[u8], &[u8])
    requires { 0 < length text.now }
    ensures lines { lines_of text.now ≡ result.0.now ∷ lines_of result.1.now }
    ensures shorter { length result.1.now < length text.now }
{
    let (line, behind) = text.split_at(line_len(text));
    match behind.split_first() {
        None => (line, behind),
        Some((_, rest)) => (line, rest),
    }
}

/// Puts a line's statements behind the others.
fn push_all<'a>(
    statements: &mut Vec<Statement<'a>>,
    line: u32,
    bodies: Vec<Body<'a>>,
) -> Result<(), AllocError>
    ensures pushed { OnOk result (statements.new.items ≡ statements.old.items ++ map (on_line line) bodies.entry.items) }
{
    for body in bodies {
        statements.push(Statement { line, body })?;
    }
    Ok(())
}

/// Adds the statements of a line, and gives the part that is in force behind it.
fn add_line<'a>(
    alloc: Global,
    statements: &mut Vec<Statement<'a>>,
    number: u32,
    part: Part,
    line: &'a [u8],
) -> Result<Part, AsmFault>
    requires proper { AreProper statements.old.items }
    ensures ok { IfOk result (λ behind. (here : List Body) × (line_of part line.now ≡ Ok (here, behind)) × (statements.new.items ≡ statements.old.items ++ map (on_line number) here)) }
    ensures proper { OnOk result (AreProper statements.new.items) }
    ensures err { IfErr result (λ fault. FailsAt fault (at_line number (line_of part line.now))) }
{
    match line_of(alloc, part, line) {
        Ok((bodies, behind)) => {
            push_all(statements, number, bodies)?;
            Ok(behind)
        }
        Err(Fault::Memory) => Err(AsmFault::Memory),
        Err(Fault::Cause(cause)) => Err(AsmFault::At(cause, number)),
    }
}

/// The statements of a text in their order, or what is wrong with its first faulty line.
///
/// A line is any number of labels, each a name and `:`, then at most one statement: a name, and its operands with a
/// comma between each two. `#` begins a comment to the end of the line. Statements are the instructions of `mips_isa`
/// with their operands in the order of the MIPS32 manuals, the macros `nop`, `move`, `b`, `li` and `la`, and the
/// directives `.text`, `.data`, `.word`, `.space` and `.globl`, of which the last has no effect. In the place of its
/// label a branch may have the immediate itself, and a jump a byte address. The text part is in force at the start.
///
/// A line is judged in this order, each time from the left:
/// - its tokens: [`AsmCause::BadByte`], or [`AsmCause::Range`] for a number that 32 bits don't hold;
/// - what stands behind the labels: [`AsmCause::BadOperand`] where it is no name, and [`AsmCause::UnknownName`] where no
///   statement has that name;
/// - the part in force: [`AsmCause::BadOperand`] for `.word` and `.space` in the text part, and for an instruction in the
///   data part;
/// - the operands: [`AsmCause::UnknownName`] for a register, [`AsmCause::Range`] for a number that is out of its bounds or
///   no multiple of 4 where one is wanted, and [`AsmCause::BadOperand`] for any token but one of the kind that is wanted.
pub fn parse(alloc: Global, text: &[u8]) -> Result<Vec<Statement<'_>>, AsmFault>
    requires size { length text.now ≤ 268435456 }
    ensures meaning { GivesAt (λ v. v.items) result (statements_of text.now) }
    ensures few { IfOk result (λ statements. length statements.items ≤ length text.now) }
    ensures proper { IfOk result (λ statements. AreProper statements.items) }
    ensures rising { IfOk result (λ statements. AreRising statements.items) }
{
    let mut statements = Vec::new(alloc);
    let mut part = Part::Text;
    let mut number: u32 = 1;
    let mut rest = text;
    'lines: while !rest.is_empty() {
        let (line, behind) = split_line(rest);
        part = add_line(alloc, &mut statements, number, part, line)?;
        number += 1;
        rest = behind;
    }
    Ok(statements)
}
