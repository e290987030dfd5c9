//! Sources for a larger memory than a call of the program can have.

use asm_layout::{address_of, lay_out};
use asm_parse::{AsmCause, AsmFault, parse};
use std::test::Fail;

#[test]
fn furthest_jump(rt: HostRuntime) -> Result<(), Fail> {
    let statements = parse(rt.alloc(), b"j a\n.data 0xffffffc\na:")?;
    let labels = lay_out(rt.alloc(), &statements, 1 << 28)?;
    assert!(rt; address_of(&labels, b"a") == Some(268_435_452));
    Ok(())
}

#[test]
fn jump_too_far(rt: HostRuntime) -> Result<(), Fail> {
    let statements = parse(rt.alloc(), b"j a\n.data 0x10000000\na:")?;
    let answer = lay_out(rt.alloc(), &statements, 1 << 28);
    assert!(rt; matches!(answer, Err(AsmFault::At(AsmCause::Range, 1))));
    Ok(())
}
