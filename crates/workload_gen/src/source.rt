//! The source of a random workload, block by block.
ghost use Rattle.std.specs.Prelude.{◌≡◌, ◌+◌, ◌*◌, ◌≤◌, ◌++◌, length, codes, decimal, IfOk, OnOk, vec_len};
ghost use Rattle.workload_gen.specs.Source.{lines_text, load_lines, store_lines, swap_lines, branch_lines, block_lines, head_lines, tail_lines, source_text};

use kmp_base::{NoMemory, Row};
use rand_core::SeedableRng;
use rand_core::utils::NextWord;
use rand_pcg::Pcg32;
use std::alloc::Global;

/// Appends a line and its line feed.
fn add_line(text: &mut Vec<u8>, line: &[u8]) -> Result<(), NoMemory>
    ensures line { OnOk result (text.new.items ≡ text.old.items ++ (line.now ++ codes "\n")) }
{
    text.extend_from_slice(line)?;
    text.extend_from_slice(b"\n")
}

/// Appends a line with a number between two texts.
#[tactic(auto, using(std_laws::proofs::NumberLaws::length_decimal_64))]
fn add_numbered(text: &mut Vec<u8>, front: &str, number: u32, back: &str) -> Result<(), NoMemory>
    requires { length front.now + length back.now ≤ 100 }
    ensures line { OnOk result
        (text.new.items ≡ text.old.items ++ (front.now ++ decimal number ++ back.now ++ codes "\n")) }
{
    let mut line = Row::new();
    line.text(front);
    line.decimal(u64::from(number));
    line.text(back);
    add_line(text, line.bytes())
}

fn add_load(text: &mut Vec<u8>, offset: u32) -> Result<(), NoMemory>
    ensures lines { OnOk result (text.new.items ≡ text.old.items ++ lines_text (load_lines offset)) }
{
    add_numbered(text, "lw $t0, ", offset, "($s0)")?;
    add_line(text, b"addu $s1, $s1, $t0")
}

fn add_store(text: &mut Vec<u8>, amount: u32, offset: u32) -> Result<(), NoMemory>
    ensures lines { OnOk result (text.new.items ≡ text.old.items ++ lines_text (store_lines amount offset)) }
{
    add_numbered(text, "addiu $s1, $s1, ", amount, "")?;
    add_numbered(text, "sw $s1, ", offset, "($s0)")
}

fn add_swap(text: &mut Vec<u8>, offset: u32) -> Result<(), NoMemory>
    ensures lines { OnOk result (text.new.items ≡ text.old.items ++ lines_text (swap_lines offset)) }
{
    add_numbered(text, "lw $t0, ", offset, "($s0)")?;
    add_numbered(text, "addiu $t1, $s0, ", offset, "")?;
    add_line(text, b"cas $t0, $t1, $s1")
}

fn add_branch(text: &mut Vec<u8>, number: u32) -> Result<(), NoMemory>
    ensures lines { OnOk result (text.new.items ≡ text.old.items ++ lines_text (branch_lines number)) }
{
    add_numbered(text, "beq $s1, $zero, n", number, "")?;
    add_line(text, b"addiu $s1, $s1, 1")?;
    add_line(text, b"xor $s1, $s1, $a0")?;
    add_numbered(text, "n", number, ":")
}

fn add_head(text: &mut Vec<u8>) -> Result<(), NoMemory>
    ensures lines { OnOk result (text.new.items ≡ text.old.items ++ lines_text head_lines) }
{
    add_line(text, b"la $s0, table")?;
    add_line(text, b"li $s1, 0")
}

fn add_tail(text: &mut Vec<u8>) -> Result<(), NoMemory>
    ensures lines { OnOk result (text.new.items ≡ text.old.items ++ lines_text tail_lines) }
{
    add_line(text, b"halt")?;
    add_line(text, b".data 0x8000")?;
    add_line(text, b"table: .space 256")
}

/// Appends the block of a number, as a word draws it.
fn add_block(text: &mut Vec<u8>, number: u32, word: u32) -> Result<(), NoMemory>
    ensures lines { OnOk result (text.new.items ≡ text.old.items ++ lines_text (block_lines number word)) }
{
    let offset = 4 * (word / 4 % 64);
    let amount = word / 256 % 1000;
    match word % 4 {
        0 => add_load(text, offset),
        1 => add_store(text, amount, offset),
        2 => add_swap(text, offset),
        _ => add_branch(text, number),
    }
}

/// The assembler source of a random workload of `size` blocks. Each block is drawn by one word of [`Pcg32`], which is made
/// by `seed_from_u64` of `seed + 2`. It fails only for want of memory.
///
/// The program has a sum in `$s1` and works on a table of 64 words at 0x8000. By its word a block loads from the table,
/// stores there, stores there by `cas`, or branches.
pub fn source_of(alloc: Global, seed: u32, size: u32) -> Result<Vec<u8>, NoMemory>
    requires { size ≤ 1000 }
    ensures text { IfOk result (λ text. text.items ≡ source_text seed size) }
    ensures short { IfOk result (λ text. vec_len text ≤ 63 * size + 60) }
{
    let mut words = Pcg32::seed_from_u64(u64::from(seed) + 2);
    let mut text = Vec::new(alloc);
    add_head(&mut text)?;
    for number in 0..size {
        add_block(&mut text, number, words.next_word())?;
    }
    add_tail(&mut text)?;
    Ok(text)
}
