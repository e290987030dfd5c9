//! The layout of a source.
ghost use Rattle.std.specs.Prelude.{◌≡◌, ◌*◌, ◌≤◌, length};
ghost use Rattle.asm_layout.specs.Places.{code_behind};
ghost use Rattle.asm_layout.specs.Passes.{LaysOut};

use crate::labels::{Labels, labels_of};
use crate::operands::first_bad_operand;
use crate::place::code_size;
use crate::room::first_without_room;
use asm_parse::{AsmCause, AsmFault, Statement};
use std::alloc::Global;

/// The most statements of a source.
pub const MOST_STATEMENTS: usize = 16_777_216;

/// How many bytes of code the statements have, without a `nop` behind them.
fn code_bytes(statements: &[Statement<'_>]) -> u64
    requires few { length statements.now ≤ MOST_STATEMENTS }
    ensures value { result ≡ code_behind statements.now }
    ensures bound { result ≤ 8 * MOST_STATEMENTS }
{
    let mut bytes = 0;
    for statement in statements {
        bytes += code_size(&statement.body);
    }
    bytes
}

/// The labels of a source, in a memory of so many bytes, or what is wrong with it first.
///
/// A source without code is at fault in line 0.
#[tactic(auto, unfolding(crate::specs::Passes::layout_fault))]
pub fn lay_out<'a>(
    alloc: Global,
    statements: &[Statement<'a>],
    memory: u64,
) -> Result<Labels<'a>, AsmFault>
    requires few { length statements.now ≤ MOST_STATEMENTS }
    ensures layout { LaysOut memory statements.now result }
{
    let code = code_bytes(statements);
    if code == 0 {
        return Err(AsmFault::At(AsmCause::NoCode, 0));
    }
    let end = code.div_ceil(8) * 8;
    let labels = labels_of(alloc, statements, end)?;
    if let Some((cause, line)) = first_without_room(statements, memory, end) {
        return Err(AsmFault::At(cause, line));
    }
    if let Some((cause, line)) = first_bad_operand(&labels, statements) {
        return Err(AsmFault::At(cause, line));
    }
    Ok(labels)
}
