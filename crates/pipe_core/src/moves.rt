//! How the instructions under way move in a clock.
ghost use Rattle.std.specs.Prelude.{◌≡◌, ◌<◌, ◌≤◌, ◌+◌, ◌^◌, false};
ghost use Rattle.pipe_regs.specs.Slots.{IsProperWhere};
ghost use Rattle.pipe_core.specs.Moves.{next_pc_where, result_where};
ghost use Rattle.pipe_core.specs.Enabled.{AreEnabled};
ghost use Rattle.pipe_core.specs.Steps.{commits, retires, advances, issues, begins, enters, stepped, IsFit, IsProperWord};

use crate::flight::follow;
use crate::{Flight, Operands, Times};
use mips_isa::{Instr, effects};
use pipe_regs::{Slot, is_load};
use stall_engine::Enables;

/// The pc after an instruction.
fn next_pc(instr: Option<Instr>, a: u32, b: u32, pc: u32) -> u32
    requires proper { IsProperWhere instr }
    ensures pc { result ≡ next_pc_where instr a b pc }
{
    match instr {
        None => pc.wrapping_add(4),
        Some(instr) => effects::next_pc(instr, a, b, pc),
    }
}

/// What an instruction computes without memory.
fn computed(instr: Option<Instr>, a: u32, b: u32, pc: u32) -> u32
    requires proper { IsProperWhere instr }
    ensures computed { result ≡ result_where instr a b pc }
{
    match instr {
        None => 0,
        Some(instr) => effects::alu(instr, a, b, pc),
    }
}

/// WB writes the register file.
#[tactic(auto, unfolding(crate::specs::Steps::commits))]
pub(crate) fn commit(flight: &mut Flight)
    requires fit { IsFit flight.old }
    ensures moved { flight.new ≡ commits flight.old }
    ensures fit { IsFit flight.new }
    ensures executed { flight.new.executed ≡ flight.old.executed }
{
    let Some(slot) = flight.stages.wb else {
        return;
    };
    flight.stages.wb = None;
    let Some(instr) = slot.instr else {
        return;
    };
    if let Some(r) = effects::writes(instr) {
        flight.stages.regs[r as usize] = slot.result;
    }
}

/// Where a word is told, the instruction in M is executed, and a load receives it.
#[tactic(auto, unfolding(crate::specs::Steps::retires))]
pub(crate) fn retire(flight: &mut Flight, goes: Option<u32>)
    requires fit { IsFit flight.old }
    requires room { flight.old.executed + 1 < 2 ^ 32 }
    ensures moved { flight.new ≡ retires goes flight.old }
    ensures fit { IsFit flight.new }
    ensures executed { flight.new.executed ≤ flight.old.executed + 1 }
{
    let Some(word) = goes else {
        return;
    };
    let Some(slot) = flight.stages.mem else {
        return;
    };
    let result = if is_load(slot.instr) {
        word
    } else {
        slot.result
    };
    flight.executed += 1;
    flight.dpc = slot.pc;
    flight.pc = next_pc(slot.instr, slot.a, slot.b, slot.pc);
    flight.stages.mem = None;
    flight.stages.wb = Some(Slot { result, ..slot });
}

/// The instruction in EX goes on to M, where M is empty.
#[tactic(auto, unfolding(crate::specs::Steps::advances))]
fn advance(flight: &mut Flight, moves: bool, clock: u32)
    requires still { moves ≡ false → advances clock flight.old ≡ flight.old }
    requires fit { IsFit flight.old }
    ensures moved { flight.new ≡ advances clock flight.old }
    ensures fit { IsFit flight.new }
    ensures executed { flight.new.executed ≡ flight.old.executed }
{
    if !moves || flight.stages.mem.is_some() {
        return;
    }
    if flight.stages.ex.is_some() {
        flight.stages.mem = flight.stages.ex;
        flight.stages.ex = None;
        flight.mem_times = Times {
            e: clock,
            ..flight.ex_times
        };
    }
}

/// The instruction in ID goes on to EX with its operands, where EX is empty.
#[tactic(auto, unfolding(crate::specs::Steps::issues))]
fn issue(flight: &mut Flight, moves: bool, operands: Option<Operands>, clock: u32)
    requires still { moves ≡ false → issues clock operands flight.old ≡ flight.old }
    requires fit { IsFit flight.old }
    ensures moved { flight.new ≡ issues clock operands flight.old }
    ensures fit { IsFit flight.new }
    ensures executed { flight.new.executed ≡ flight.old.executed }
{
    if !moves || flight.stages.ex.is_some() {
        return;
    }
    let Some(slot) = flight.stages.id else {
        return;
    };
    let Some(Operands { a, b, c }) = operands else {
        return;
    };
    let result = computed(slot.instr, a, b, slot.pc);
    flight.stages.ex = Some(Slot {
        a,
        b,
        c,
        result,
        ..slot
    });
    flight.stages.id = None;
    flight.front_dpc = flight.front_pc;
    flight.front_pc = next_pc(slot.instr, a, b, slot.pc);
    flight.ex_times = Times {
        d: clock,
        ..flight.id_times
    };
}

/// An instruction begins, where none is in IF.
#[tactic(auto, unfolding(crate::specs::Steps::begins))]
fn begin(flight: &mut Flight, word: Option<Option<Instr>>, clock: u32)
    requires fit { IsFit flight.old }
    requires word { IsProperWord word }
    ensures moved { flight.new ≡ begins clock word flight.old }
    ensures fit { IsFit flight.new }
    ensures executed { flight.new.executed ≡ flight.old.executed }
{
    if flight.fetch.is_some() {
        return;
    }
    let Some(instr) = word else {
        return;
    };
    flight.fetch = Some(Slot {
        dpc: follow(flight),
        pc: 0,
        instr,
        a: 0,
        b: 0,
        c: 0,
        result: 0,
    });
    flight.fetch_times = Times {
        i: clock,
        f: 0,
        d: 0,
        e: 0,
    };
}

/// The instruction in IF goes on to ID, where ID is empty.
#[tactic(auto, unfolding(crate::specs::Steps::enters))]
fn enter(flight: &mut Flight, moves: bool, clock: u32)
    requires still { moves ≡ false → enters clock flight.old ≡ flight.old }
    requires fit { IsFit flight.old }
    ensures moved { flight.new ≡ enters clock flight.old }
    ensures fit { IsFit flight.new }
    ensures executed { flight.new.executed ≡ flight.old.executed }
{
    if !moves || flight.stages.id.is_some() {
        return;
    }
    let Some(slot) = flight.fetch else {
        return;
    };
    flight.stages.id = Some(Slot {
        pc: flight.front_pc,
        ..slot
    });
    flight.fetch = None;
    flight.id_times = Times {
        f: clock,
        ..flight.fetch_times
    };
}

/// All that is under way goes on by a clock.
#[tactic(auto, unfolding(crate::specs::Steps::stepped))]
pub(crate) fn step(
    flight: &mut Flight,
    enables: Enables,
    goes: Option<u32>,
    operands: Option<Operands>,
    word: Option<Option<Instr>>,
    clock: u32,
)
    requires fit { IsFit flight.old }
    requires enabled { AreEnabled enables flight.old goes operands word }
    requires word { IsProperWord word }
    requires executed { flight.old.executed + 1 < 2 ^ 32 }
    ensures moved { flight.new ≡ stepped goes operands word clock flight.old }
    ensures fit { IsFit flight.new }
    ensures executed { flight.new.executed ≤ flight.old.executed + 1 }
{
    commit(flight);
    retire(flight, goes);
    advance(flight, enables.ex, clock);
    issue(flight, enables.id, operands, clock);
    begin(flight, word, clock);
    enter(flight, enables.fetch, clock);
}
