//! What is under way.
ghost use Rattle.std.specs.Prelude.{◌≡◌, List, ℕ};
ghost use Rattle.image_file.specs.Value.{start_state};
ghost use Rattle.pipe_regs.specs.Slots.{HoldsProper};
ghost use Rattle.pipe_core.specs.Moves.{follow};
ghost use Rattle.pipe_core.specs.Chain.{state_of, IsChained};
ghost use Rattle.pipe_core.specs.Steps.{IsFit, IsEmpty};
ghost use Rattle.pipe_core.specs.Punctual.{TimesBelow};

use image_file::{Image, start_state};
use mips_isa::{CoreState, effects};
use pipe_regs::{Slot, Stages};

/// The clocks of an instruction in a stage, as far as it has come: those in which it began and in which it left IF, ID and EX.
#[derive(Clone, Copy)]
pub struct Times {
    pub i: u32,
    pub f: u32,
    pub d: u32,
    pub e: u32,
}

/// The instructions under way.
#[derive(Clone, Copy)]
pub struct Flight {
    /// How many instructions are executed.
    pub executed: u32,
    /// The place of the oldest instruction that isn't executed.
    pub dpc: u32,
    pub pc: u32,
    /// The place of the instruction that is in ID or enters it next.
    pub front_dpc: u32,
    pub front_pc: u32,
    /// The instruction in IF.
    pub fetch: Option<Slot>,
    pub stages: Stages,
    pub fetch_times: Times,
    pub id_times: Times,
    pub ex_times: Times,
    pub mem_times: Times,
}

/// The values that an instruction reads: of rs, of rt, and the one that a compare and swap expects.
#[derive(Clone, Copy)]
pub struct Operands {
    pub a: u32,
    pub b: u32,
    pub c: u32,
}

/// Nothing under way, at the start of a core.
pub(crate) fn starting(image: &Image, core: u32, cores: u32) -> Flight
    ensures state { state_of result ≡ start_state image.now core cores }
    ensures fit { IsFit result }
    ensures chained { (code : List ℕ) → IsChained code (state_of result) result }
    ensures executed { result.executed ≡ 0 }
    ensures empty { IsEmpty result }
    ensures mem_times { TimesBelow 0 result.mem_times }
    ensures ex_times { TimesBelow 0 result.ex_times }
    ensures id_times { TimesBelow 0 result.id_times }
    ensures fetch_times { TimesBelow 0 result.fetch_times }
{
    let CoreState { pc, dpc, regs } = start_state(image, core, cores);
    let times = Times {
        i: 0,
        f: 0,
        d: 0,
        e: 0,
    };
    Flight {
        executed: 0,
        dpc,
        pc,
        front_dpc: dpc,
        front_pc: pc,
        fetch: None,
        stages: Stages {
            id: None,
            ex: None,
            mem: None,
            wb: None,
            regs,
        },
        fetch_times: times,
        id_times: times,
        ex_times: times,
        mem_times: times,
    }
}

/// The place of the next instruction to begin.
pub(crate) fn follow(flight: &Flight) -> u32
    ensures place { result ≡ follow flight.now.stages.id flight.now.front_dpc flight.now.front_pc }
{
    match flight.stages.id {
        Some(_) => flight.front_pc,
        None => flight.front_dpc,
    }
}

/// The state of the core behind the instructions that are executed.
pub(crate) fn state_of(flight: &Flight) -> CoreState
    requires proper { HoldsProper flight.now.stages.wb }
    ensures state { result ≡ state_of flight.now }
{
    let mut regs = flight.stages.regs;
    if let Some(slot) = flight.stages.wb {
        if let Some(instr) = slot.instr {
            if let Some(r) = effects::writes(instr) {
                regs[r as usize] = slot.result;
            }
        }
    }
    CoreState {
        pc: flight.pc,
        dpc: flight.dpc,
        regs,
    }
}
