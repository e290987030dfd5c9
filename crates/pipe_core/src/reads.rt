//! What an engine reads off its stages.
ghost use Rattle.std.specs.Prelude.{◌≡◌, ◌*◌, length};
ghost use Rattle.mips_isa.specs.Effects.{is_off_code};
ghost use Rattle.pipe_regs.specs.Slots.{HoldsProper, AreProper, IsProperWhere};
ghost use Rattle.pipe_core.specs.Moves.{operands_of};
ghost use Rattle.pipe_core.specs.Steps.{IsProperWord};
ghost use Rattle.pipe_core.specs.Wants.{stop_in, access_in, goes_by, fetch_in, place_of, word_of, IsKnown};
ghost use Rattle.pipe_core.specs.Enabled.{AreEnabled};
ghost use Rattle.pipe_core.specs.Clock.{read_by};

use crate::flight::follow;
use crate::{Flight, Operands};
use access_log::Request;
use forwarding::{Operand, select};
use image_file::Image;
use mips_isa::{Access, Instr, Stop, effects, words};
use pipe_regs::{Slot, Stages};
use stall_engine::moves::enables;
use stall_engine::{Enables, Full, Hazard};

/// The stop of the instruction in M.
#[tactic(auto, unfolding(crate::specs::Wants::stop_at))]
pub(crate) fn stop_of(image: &Image, mem: &Option<Slot>) -> Option<Stop>
    requires proper { HoldsProper mem.now }
    requires known { IsKnown image.now mem.now }
    ensures stop { result ≡ stop_in image.now mem.now }
{
    let Some(slot) = *mem else {
        return None;
    };
    effects::stop(
        4 * image.code.len() as u32,
        8 * image.memory_lines,
        slot.dpc,
        slot.instr,
        slot.a,
    )
}

/// The access that the instruction in M waits for.
#[tactic(auto, unfolding(crate::specs::Wants::access_at))]
pub(crate) fn access_of(image: &Image, mem: &Option<Slot>, executed: u32) -> Option<Request>
    requires proper { HoldsProper mem.now }
    requires known { IsKnown image.now mem.now }
    ensures access { result ≡ access_in image.now executed mem.now }
{
    if stop_of(image, mem).is_some() {
        return None;
    }
    let Some(slot) = *mem else {
        return None;
    };
    let Some(instr) = slot.instr else {
        return None;
    };
    let Some(kind) = effects::kind(instr) else {
        return None;
    };
    Some(Request::of(
        executed,
        &Access {
            kind,
            addr: effects::address(instr, slot.a),
            expected: slot.c,
            value: effects::part(kind, 0, slot.b),
        },
    ))
}

/// Whether the instruction in M is executed, and the word that a load receives.
pub(crate) fn goes(mem: &Option<Slot>, access: &Option<Request>, reply: Option<u32>) -> Option<u32>
    ensures goes { result ≡ goes_by mem.now access.now reply }
{
    if mem.is_none() {
        return None;
    }
    match access {
        None => Some(0),
        Some(request) => match reply {
            None => None,
            Some(word) => Some(effects::loaded(request.kind, word)),
        },
    }
}

/// Whether no instruction stands at an address.
fn is_off_code(image: &Image, dpc: u32) -> bool
    ensures off { result ≡ is_off_code (4 * length image.now.code) dpc }
{
    dpc % 4 != 0 || dpc >= 4 * image.code.len() as u32
}

/// The address of the word that is wanted.
pub(crate) fn fetch_of(image: &Image, flight: &Flight) -> Option<u32>
    ensures fetch { result ≡ fetch_in image.now flight.now }
{
    if flight.fetch.is_some() {
        return None;
    }
    let dpc = follow(flight);
    if is_off_code(image, dpc) {
        None
    } else {
        Some(dpc)
    }
}

/// The instruction that may begin.
pub(crate) fn word(image: &Image, flight: &Flight, fetched: Option<u32>) -> Option<Option<Instr>>
    ensures word { result ≡ word_of (is_off_code (4 * length image.now.code) (place_of flight.now)) fetched }
    ensures proper { IsProperWord result }
{
    if is_off_code(image, follow(flight)) {
        return Some(None);
    }
    let Some(word) = fetched else {
        return None;
    };
    Some(words::decode(word))
}

/// The values that an instruction in ID reads, or none where one is to be waited for.
fn operands(instr: Option<Instr>, stages: &Stages) -> Option<Operands>
    requires instr { IsProperWhere instr }
    requires proper { AreProper stages.now }
    ensures operands { result ≡ operands_of instr stages.now }
{
    let Some(instr) = instr else {
        return Some(Operands { a: 0, b: 0, c: 0 });
    };
    let Operand::Value(a) = select(effects::rs(instr), stages) else {
        return None;
    };
    let Operand::Value(b) = select(effects::rt(instr), stages) else {
        return None;
    };
    let Operand::Value(c) = select(effects::expected(instr), stages) else {
        return None;
    };
    Some(Operands { a, b, c })
}

/// What the instruction in ID reads.
pub(crate) fn read(stages: &Stages) -> Option<Operands>
    requires proper { AreProper stages.now }
    ensures read { result ≡ read_by stages.now.id stages.now }
{
    match stages.id {
        None => None,
        Some(slot) => operands(slot.instr, stages),
    }
}

/// Which stages move.
pub(crate) fn enabled(
    flight: &Flight,
    goes: &Option<u32>,
    operands: &Option<Operands>,
    word: &Option<Option<Instr>>,
) -> Enables
    ensures enabled { AreEnabled result flight.now goes.now operands.now word.now }
{
    let full = Full {
        fetched: flight.fetch.is_some() || word.is_some(),
        id: flight.stages.id.is_some(),
        ex: flight.stages.ex.is_some(),
        mem: flight.stages.mem.is_some(),
        wb: flight.stages.wb.is_some(),
    };
    let hazard = Hazard {
        operand: operands.is_none(),
        access: goes.is_none(),
    };
    enables(full, hazard)
}
