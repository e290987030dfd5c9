//! The operands of the instruction that is decoded, forwarded from the stages before it.
#![tactic(auto)]

ghost use Rattle.std.specs.Prelude.{◌≡◌, ◌<◌};
ghost use Rattle.pipe_regs.specs.Slots.{AreProper, HoldsProper};
ghost use Rattle.forwarding.specs.Select.{in_flight, in_wb, selected};

use pipe_regs::{Slot, Stages, is_load, is_written_by};

/// A register as the instruction in ID finds it.
#[derive(Clone, Copy, Debug, PartialEq, Eq)]
pub enum Operand {
    /// The register's value.
    Value(u32),
    /// Its value is still to come from memory.
    Wait,
}

/// What the instruction in EX or M gives for a register; `None` where it doesn't write it.
fn in_flight(slot: &Option<Slot>, r: u8) -> Option<Operand>
    requires proper { HoldsProper slot.now }
    ensures operand { result ≡ in_flight slot.now r }
{
    let slot = (*slot)?;
    if !is_written_by(slot.instr, r) {
        None
    } else if is_load(slot.instr) {
        Some(Operand::Wait)
    } else {
        Some(Operand::Value(slot.result))
    }
}

/// What the instruction in WB gives for a register; `None` where it doesn't write it.
fn in_wb(slot: &Option<Slot>, r: u8) -> Option<Operand>
    requires proper { HoldsProper slot.now }
    ensures operand { result ≡ in_wb slot.now r }
{
    let slot = (*slot)?;
    if is_written_by(slot.instr, r) {
        Some(Operand::Value(slot.result))
    } else {
        None
    }
}

/// The register `r` for the instruction in ID: what the last earlier writer in a stage gives, else
/// what the register file has.
///
/// [`Operand::Wait`] comes exactly where that writer is a load or a compare and swap in EX or M; in
/// WB its answer is there.
pub fn select(r: u8, stages: &Stages) -> Operand
    requires register { r < 32 }
    requires proper { AreProper stages.now }
    ensures operand { result ≡ selected r stages.now }
{
    if let Some(operand) = in_flight(&stages.ex, r) {
        return operand;
    }
    if let Some(operand) = in_flight(&stages.mem, r) {
        return operand;
    }
    if let Some(operand) = in_wb(&stages.wb, r) {
        return operand;
    }
    Operand::Value(stages.regs[r as usize])
}
