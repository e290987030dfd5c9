//! What the stages of a pipeline hold, and what an instruction in a stage does to the registers.
#![tactic(auto)]

ghost use Rattle.std.specs.Prelude.{◌≡◌};
ghost use Rattle.pipe_regs.specs.Slots.{IsProperWhere, is_load, is_written_by};

use mips_isa::{Instr, effects};

/// An instruction in a stage behind the fetch.
#[derive(Clone, Copy)]
pub struct Slot {
    /// Its address, in bytes.
    pub dpc: u32,
    /// The address of the instruction behind it, which is in its delay slot where it branches.
    pub pc: u32,
    /// `None` for a place that isn't on the code.
    pub instr: Option<Instr>,
    /// The value of its register rs, once it was decoded.
    pub a: u32,
    /// The value of its register rt, once it was decoded.
    pub b: u32,
    /// The word that a compare and swap expects, once it was decoded.
    pub c: u32,
    /// What it writes into its register, once that is known.
    pub result: u32,
}

/// The stages behind the fetch, each empty or with its instruction, and the register file.
///
/// The instructions stand in program order: the one in `wb` is the oldest.
#[derive(Clone, Copy)]
pub struct Stages {
    pub id: Option<Slot>,
    pub ex: Option<Slot>,
    pub mem: Option<Slot>,
    pub wb: Option<Slot>,
    /// What the instructions that have left the last stage wrote.
    pub regs: [u32; 32],
}

/// Whether an instruction receives its register from memory.
pub fn is_load(instr: Option<Instr>) -> bool
    requires proper { IsProperWhere instr }
    ensures load { result ≡ is_load instr }
{
    match instr.and_then(effects::kind) {
        Some(kind) => effects::loads(kind),
        None => false,
    }
}

/// Whether an instruction writes the register `r`; false for register 0.
pub fn is_written_by(instr: Option<Instr>, r: u8) -> bool
    requires proper { IsProperWhere instr }
    ensures written { result ≡ is_written_by instr r }
{
    match instr {
        Some(instr) => effects::writes(instr) == Some(r),
        None => false,
    }
}
