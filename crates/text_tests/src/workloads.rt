//! Sources of random workloads, and what the assembler makes of them.
ghost use Rattle.std.specs.Prelude.{◌≤◌};

use asm_layout::{address_of, lay_out};
use asm_parse::parse;
use std::alloc::Global;
use std::test::Fail;
use workload_gen::source_of;

const NO_BLOCK: &str = "\
la $s0, table
li $s1, 0
halt
.data 0x8000
table: .space 256
";

/// Of seed 3.
const EACH_KIND: &str = "\
la $s0, table
li $s1, 0
lw $t0, 180($s0)
addiu $t1, $s0, 180
cas $t0, $t1, $s1
lw $t0, 0($s0)
addu $s1, $s1, $t0
addiu $s1, $s1, 700
sw $s1, 20($s0)
beq $s1, $zero, n3
addiu $s1, $s1, 1
xor $s1, $s1, $a0
n3:
halt
.data 0x8000
table: .space 256
";

/// Of seed 7.
const TWO_BRANCHES: &str = "\
la $s0, table
li $s1, 0
lw $t0, 52($s0)
addiu $t1, $s0, 52
cas $t0, $t1, $s1
beq $s1, $zero, n1
addiu $s1, $s1, 1
xor $s1, $s1, $a0
n1:
beq $s1, $zero, n2
addiu $s1, $s1, 1
xor $s1, $s1, $a0
n2:
halt
.data 0x8000
table: .space 256
";

const GREATEST_SEED: &str = "\
la $s0, table
li $s1, 0
addiu $s1, $s1, 62
sw $s1, 96($s0)
lw $t0, 124($s0)
addiu $t1, $s0, 124
cas $t0, $t1, $s1
halt
.data 0x8000
table: .space 256
";

fn is_source(alloc: Global, seed: u32, size: u32, text: &str) -> Result<bool, Fail>
    requires { size ≤ 1000 }
{
    Ok(source_of(alloc, seed, size)?.as_slice() == text.as_bytes())
}

/// The texts were worked out apart from the code.
#[test]
fn sources_of_seeds(rt: HostRuntime) -> Result<(), Fail> {
    assert!(rt; is_source(rt.alloc(), 0, 0, NO_BLOCK)?);
    assert!(rt; is_source(rt.alloc(), 3, 4, EACH_KIND)?);
    assert!(rt; is_source(rt.alloc(), 7, 3, TWO_BRANCHES)?);
    assert!(rt; is_source(rt.alloc(), u32::MAX, 2, GREATEST_SEED)?);
    Ok(())
}

/// The address of the table, as the assembler lays a source out in a memory of 65,536 bytes.
fn table_of(alloc: Global, seed: u32, size: u32) -> Result<Option<u64>, Fail>
    requires { size ≤ 1000 }
{
    let text = source_of(alloc, seed, size)?;
    let statements = parse(alloc, &text)?;
    let labels = lay_out(alloc, &statements, 65_536)?;
    Ok(address_of(&labels, b"table"))
}

#[test]
fn sources_are_laid_out(rt: HostRuntime) -> Result<(), Fail> {
    for seed in 0..4 {
        assert!(rt; table_of(rt.alloc(), seed, 0)? == Some(0x8000));
        assert!(rt; table_of(rt.alloc(), seed, 1000)? == Some(0x8000));
    }
    Ok(())
}
