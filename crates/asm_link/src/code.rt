//! The code of a source.
ghost use Rattle.std.specs.Prelude.{◌≡◌, ◌+◌, ◌^◌, ◌<◌, ◌≤◌, [], ◌++◌, map, length, IfOk, OnOk};
ghost use Rattle.mips_isa.specs.Words.{IsProper, word_of};
ghost use Rattle.asm_parse.specs.Statements.{IsProperBody, AreProper};
ghost use Rattle.asm_layout.specs.Places.{code_size, code_behind};
ghost use Rattle.asm_layout.specs.Labels.{Addresses, HoldsLabels};
ghost use Rattle.asm_link.specs.Assembly.{distance, branch_by, load_of, instrs_of, code_from, padded};

use crate::values::{label_word, value_word};
use asm_layout::{Labels, code_size};
use asm_parse::{Body, Statement};
use image_file::NoMemory;
use mips_isa::words::encode;
use mips_isa::{ImmOp, Instr};
use std::alloc::Global;

/// The word of `nop`.
const NOP: u32 = 0;

/// The immediate of a branch at `here` to an address.
fn distance(here: u64, address: u32) -> u16
    requires here { here + 4 ≤ 2 ^ 18 }
    ensures value { result ≡ distance here address }
{
    let bytes = u64::from(address) + (1 << 18) - (here + 4);
    (bytes / 4 % (1 << 16)) as u16
}

/// A branch with this immediate.
fn branch_by(imm: u16, instr: Instr) -> Instr
    requires proper { IsProper instr }
    ensures value { result ≡ branch_by imm instr }
    ensures proper { IsProper result }
{
    match instr {
        Instr::BranchTwo { differ, rs, rt, .. } => Instr::BranchTwo {
            differ,
            rs,
            rt,
            imm,
        },
        Instr::BranchZero { op, rs, .. } => Instr::BranchZero { op, rs, imm },
        other => other,
    }
}

/// Goes on with two instructions that load a word into a register.
fn push_load(code: &mut Vec<u32>, rt: u8, word: u32) -> Result<(), NoMemory>
    requires register { rt < 32 }
    ensures words { OnOk result (code.new.items ≡ code.old.items ++ map word_of (load_of rt word)) }
{
    let upper = (word >> 16) as u16;
    let lower = (word & 0xffff) as u16;
    code.push(encode(Instr::Lui { rt, imm: upper }))?;
    code.push(encode(Instr::AluImm {
        op: ImmOp::Ori,
        rt,
        rs: rt,
        imm: lower,
    }))?;
    Ok(())
}

/// Goes on with the code of a statement at `here`.
fn push_code(
    code: &mut Vec<u32>,
    labels: &Labels<'_>,
    here: u64,
    body: &Body<'_>,
) -> Result<(), NoMemory>
    requires proper { IsProperBody body.now }
    requires room { here + code_size body.now ≤ 2 ^ 18 }
    ensures words { OnOk result ((known : Addresses) → HoldsLabels labels.now known → code.new.items ≡ code.old.items ++ map word_of (instrs_of known here body.now)) }
{
    match body {
        Body::Plain(instr) => code.push(encode(*instr))?,
        Body::BranchTo(instr, name) => {
            let imm = distance(here, label_word(labels, name.as_slice()));
            code.push(encode(branch_by(imm, *instr)))?;
        }
        Body::JumpTo(link, name) => {
            let index = label_word(labels, name.as_slice()) / 4 % (1 << 26);
            code.push(encode(Instr::Jump { link: *link, index }))?;
        }
        Body::Load(rt, value) => push_load(code, *rt, value_word(labels, value))?,
        _ => {}
    }
    Ok(())
}

/// The code of the statements.
pub fn code_words(
    alloc: Global,
    labels: &Labels<'_>,
    statements: &[Statement<'_>],
) -> Result<Vec<u32>, NoMemory>
    requires proper { AreProper statements.now }
    requires room { code_behind statements.now ≤ 2 ^ 18 }
    ensures words { IfOk result (λ code. (known : Addresses) → HoldsLabels labels.now known → code.items ≡ code_from known [] statements.now) }
{
    let mut code = Vec::new(alloc);
    let mut here = 0;
    for statement in statements {
        push_code(&mut code, labels, here, &statement.body)?;
        here += code_size(&statement.body);
    }
    Ok(code)
}

/// Goes on with a `nop`, where the number of words is odd.
pub fn pad(code: &mut Vec<u32>) -> Result<(), NoMemory>
    ensures words { OnOk result (code.new.items ≡ padded code.old.items) }
{
    if code.len() % 2 == 1 {
        code.push(NOP)?;
    }
    Ok(())
}
