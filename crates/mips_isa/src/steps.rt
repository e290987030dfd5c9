//! A core that executes instructions, one at a time and each with its delay slot.
//!
//! The code is the list of its words, of which the first stands at address 0. Sizes and addresses are in bytes.
ghost use Rattle.std.specs.Prelude.{◌≡◌, ◌*◌, ◌<◌, ◌≤◌, IfSome, IfNone, length, slice_index};
ghost use Rattle.mips_isa.specs.Words.{IsProper};
ghost use Rattle.mips_isa.specs.Effects.{kind_of, address_of, IsProperAddress};
ghost use Rattle.mips_isa.specs.Steps.{start, written_where, rs_value, executed, answered, instr_at, rs_value_at, stop_of, next_of, IsProperNext, finish_of, IsCode, KeepsZero, KeepsZeroNext};

use crate::words::decode;
use crate::{Access, CoreState, Instr, Kind, Next, Stop, effects};

/// The state in which the core with the number `core` begins, one of `cores`.
///
/// It is at address 0. Register 4 has its number and register 5 the count of the cores; all others are 0.
#[tactic(auto, unfolding(crate::specs::Steps::start))]
pub fn start(core: u32, cores: u32) -> CoreState
    ensures value { result ≡ start core cores }
    ensures zero { slice_index result.regs 0 ≡ 0 }
{
    let mut regs = [0; 32];
    regs[4] = core;
    regs[5] = cores;
    CoreState {
        pc: 4,
        dpc: 0,
        regs,
    }
}

/// The state after an instruction that writes a register, if any, and leads to `target` behind its delay slot.
fn advance(state: &CoreState, register: Option<u8>, value: u32, target: u32) -> CoreState
    requires bound { IfSome register (λ r. r < 32) }
    ensures value { result ≡ record { pc = target; dpc = state.now.pc; regs = written_where state.now.regs register value } }
{
    let mut next = CoreState {
        pc: target,
        dpc: state.pc,
        regs: state.regs,
    };
    if let Some(register) = register {
        next.regs[register as usize] = value;
    }
    next
}

#[tactic(auto, unfolding(crate::specs::Steps::executed))]
fn execute(instr: Instr, state: &CoreState) -> CoreState
    requires proper { IsProper instr }
    ensures value { result ≡ executed instr state.now }
{
    let a = state.regs[effects::rs(instr) as usize];
    let b = state.regs[effects::rt(instr) as usize];
    let value = effects::alu(instr, a, b, state.pc);
    let target = effects::next_pc(instr, a, b, state.pc);
    advance(state, effects::writes(instr), value, target)
}

#[tactic(auto, unfolding(crate::specs::Steps::answered))]
fn answer(instr: Instr, kind: Kind, old: u32, state: &CoreState) -> CoreState
    requires proper { IsProper instr }
    ensures value { result ≡ answered instr kind old state.now }
{
    let value = effects::loaded(kind, old);
    advance(
        state,
        effects::writes(instr),
        value,
        state.pc.wrapping_add(4),
    )
}

/// The instruction that the code has at an address; `None` past its end, and where the word spells nothing.
///
/// The two lowest bits of the address do not count.
#[tactic(auto, unfolding(crate::specs::Steps::instr_at))]
pub fn instr_at(code: &[u32], addr: u32) -> Option<Instr>
    ensures value { result ≡ instr_at code.now addr }
    ensures proper { IfSome result (λ instr. IsProper instr) }
{
    match code.get((addr / 4) as usize) {
        Some(word) => decode(*word),
        None => None,
    }
}

fn rs_value_at(state: &CoreState, instr: Option<Instr>) -> u32
    requires proper { IfSome instr (λ i. IsProper i) }
    ensures value { result ≡ rs_value_at state.now instr }
{
    match instr {
        Some(instr) => state.regs[effects::rs(instr) as usize],
        None => 0,
    }
}

#[tactic(auto, unfolding(crate::specs::Steps::stop_of))]
fn stop_with(
    code: &[u32],
    memory_bytes: u32,
    state: &CoreState,
    instr: Option<Instr>,
) -> Option<Stop>
    requires code { IsCode code.now }
    requires few { length code.now ≤ 65536 }
    requires known { instr ≡ instr_at code.now state.now.dpc }
    requires proper { IfSome instr (λ i. IsProper i) }
    ensures value { result ≡ stop_of code.now memory_bytes state.now }
    ensures allowed { IfNone result (IfSome instr (λ i. IsProperAddress (4 * length code.now) memory_bytes (kind_of i) (address_of i (rs_value state.now i)))) }
{
    let a = rs_value_at(state, instr);
    effects::stop(4 * code.len() as u32, memory_bytes, state.dpc, instr, a)
}

/// The stop at which a core stands, for a memory of so many bytes; `None` where it executes the instruction at `dpc`.
pub fn stop(code: &[u32], memory_bytes: u32, state: &CoreState) -> Option<Stop>
    requires code { IsCode code.now }
    requires few { length code.now ≤ 65536 }
    ensures value { result ≡ stop_of code.now memory_bytes state.now }
{
    stop_with(code, memory_bytes, state, instr_at(code, state.dpc))
}

/// What a core does at the instruction at `dpc`, for a memory of so many bytes.
///
/// After an access that it asks for, [`finish`] gives its state.
#[tactic(auto, unfolding(crate::specs::Steps::next_of))]
pub fn next(code: &[u32], memory_bytes: u32, state: &CoreState) -> Next
    requires code { IsCode code.now }
    requires few { length code.now ≤ 65536 }
    ensures value { result ≡ next_of code.now memory_bytes state.now }
    ensures allowed { IsProperNext code.now memory_bytes result }
    ensures zero { KeepsZeroNext state.now result }
{
    let instr = instr_at(code, state.dpc);
    if let Some(stop) = stop_with(code, memory_bytes, state, instr) {
        return Next::Stops(stop);
    }
    let Some(instr) = instr else {
        return Next::Stops(Stop::OffCode);
    };
    match effects::kind(instr) {
        None => Next::Goes(execute(instr, state)),
        Some(kind) => {
            let a = state.regs[effects::rs(instr) as usize];
            let b = state.regs[effects::rt(instr) as usize];
            Next::Asks(Access {
                kind,
                addr: effects::address(instr, a),
                expected: state.regs[effects::expected(instr) as usize],
                value: effects::part(kind, 0, b),
            })
        }
    }
}

/// The state of a core after the access at `dpc`, where `old` is what memory held in the part that the access touches.
///
/// Where the instruction at `dpc` makes no access, it is the state as it was.
#[tactic(auto, unfolding(crate::specs::Steps::finish_of))]
pub fn finish(code: &[u32], state: &CoreState, old: u32) -> CoreState
    ensures value { result ≡ finish_of code.now state.now old }
    ensures zero { KeepsZero state.now result }
{
    match instr_at(code, state.dpc) {
        None => *state,
        Some(instr) => match effects::kind(instr) {
            None => *state,
            Some(kind) => answer(instr, kind, old, state),
        },
    }
}
