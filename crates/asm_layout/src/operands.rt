//! Whether the operands of a source name labels that serve.
ghost use Rattle.std.specs.Prelude.{◌≡◌, ◌^◌, ◌<◌, ◌≤◌, [], length};
ghost use Rattle.asm_layout.specs.Labels.{Addresses, HoldsLabels};
ghost use Rattle.asm_layout.specs.Passes.{branch_reaches, first_fault, operand_fault, operand_test};

use crate::MOST_STATEMENTS;
use crate::labels::{Labels, address_of};
use crate::place::code_size;
use asm_parse::{AsmCause, Body, Statement, Value};

/// Whether a branch at `here` reaches an address.
fn branch_reaches(here: u64, address: u64) -> bool
    requires here { here < 2 ^ 62 }
    ensures value { result ≡ branch_reaches here address }
{
    address < 4 * 65_538 && here + 4 <= address + 4 * 32_768 && address <= here + 4 * 32_768
}

/// What is wrong with the operand of a statement whose code is at `here`.
fn operand_fault(labels: &Labels<'_>, here: u64, body: &Body<'_>) -> Option<AsmCause>
    requires here { here < 2 ^ 62 }
    ensures value { (known : Addresses) → HoldsLabels labels.now known → result ≡ operand_fault known here body.now }
{
    let name = match body {
        Body::BranchTo(_, name) | Body::JumpTo(_, name) => name,
        Body::Load(_, Value::Of(name)) | Body::Word(Value::Of(name)) => name,
        _ => return None,
    };
    let Some(address) = address_of(labels, name.as_slice()) else {
        return Some(AsmCause::LabelMissing);
    };
    let serves = match body {
        Body::BranchTo(_, _) => branch_reaches(here, address),
        Body::JumpTo(_, _) => address < 1 << 28,
        _ => true,
    };
    (!serves).then_some(AsmCause::Range)
}

/// The first fault in the operands of a source's statements.
pub fn first_bad_operand(
    labels: &Labels<'_>,
    statements: &[Statement<'_>],
) -> Option<(AsmCause, u32)>
    requires few { length statements.now ≤ MOST_STATEMENTS }
    ensures value { (known : Addresses) → HoldsLabels labels.now known → result ≡ first_fault (operand_test known) [] statements.now }
{
    let mut here = 0;
    for statement in statements {
        if let Some(cause) = operand_fault(labels, here, &statement.body) {
            return Some((cause, statement.line));
        }
        here += code_size(&statement.body);
    }
    None
}
