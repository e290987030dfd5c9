//! What stands in delay slots.
ghost use Rattle.std.specs.Prelude.{◌≡◌, ◌==◌, if◌then◌else◌, IfOk};
ghost use Rattle.asm_layout.specs.Places.{code_size};
ghost use Rattle.asm_layout.specs.DelaySlots.{is_branch_or_jump, has_delay_slot, split_lines};

use crate::place::code_size;
use asm_parse::{Body, Statement};
use mips_isa::Instr;
use std::alloc::{AllocError, Global};

fn is_branch_or_jump(instr: &Instr) -> bool
    ensures value { result ≡ is_branch_or_jump instr.now }
{
    matches!(
        instr,
        Instr::BranchTwo { .. }
            | Instr::BranchZero { .. }
            | Instr::Jump { .. }
            | Instr::JumpReg { .. }
            | Instr::JumpLink { .. }
    )
}

/// Whether a delay slot stands behind a statement.
fn has_delay_slot(body: &Body<'_>) -> bool
    ensures value { result ≡ has_delay_slot body.now }
{
    match body {
        Body::Plain(instr) => is_branch_or_jump(instr),
        Body::BranchTo(_, _) | Body::JumpTo(_, _) => true,
        _ => false,
    }
}

/// Whether the word of code behind a statement stands in a delay slot, where that before it does or doesn't.
fn delay_slot_behind(in_delay_slot: bool, body: &Body<'_>) -> bool
    ensures value { result ≡ (if code_size body.now == 0 then in_delay_slot else has_delay_slot body.now) }
{
    if code_size(body) == 0 {
        in_delay_slot
    } else {
        has_delay_slot(body)
    }
}

/// The lines of the `li` and `la` that stand directly behind a branch or a jump, whatever stands between without code.
///
/// Each is two words, of which only the first stands in the delay slot.
pub fn split_lines(alloc: Global, statements: &[Statement<'_>]) -> Result<Vec<u32>, AllocError>
    ensures lines { IfOk result (λ lines. lines.items ≡ split_lines statements.now) }
{
    let mut lines = Vec::new(alloc);
    let mut in_delay_slot = false;
    for statement in statements {
        if in_delay_slot && code_size(&statement.body) == 8 {
            lines.push(statement.line)?;
        }
        in_delay_slot = delay_slot_behind(in_delay_slot, &statement.body);
    }
    Ok(lines)
}
