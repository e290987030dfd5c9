//! What an access finds in memory and leaves there. Index i of a memory is the word at the byte
//! address 4i.
ghost use Rattle.std.specs.Prelude.{◌≡◌, ◌*◌, ◌%◌, ◌<◌, length};
ghost use Rattle.mips_isa.specs.Kinds.{width};
ghost use Rattle.access_log.specs.Memory.{new_part, made, due, after};

use crate::Entry;
use mips_isa::{Access, Kind, effects};

/// What an access stores, where the part of memory was `old`.
fn new_part(access: &Access, old: u32) -> Option<u32>
    ensures new { result ≡ new_part access.now.kind access.now old }
{
    let stored = match access.kind {
        Kind::Cas => old == access.expected,
        kind => effects::stores(kind),
    };
    stored.then_some(access.value)
}

/// The entry of a core's access that found this part of memory, where `nth` are its executed
/// instructions.
pub fn made(core: u32, nth: u32, access: &Access, old: u32) -> Entry
    ensures made { result ≡ made core nth access.now old }
{
    Entry {
        core,
        nth,
        kind: access.kind,
        addr: access.addr,
        old,
        new: new_part(access, old),
    }
}

/// The entry that is due for an access of a core, whose executed instructions are `nth`. Memory
/// isn't changed.
#[tactic(auto, unfolding(crate::specs::Memory::due))]
pub fn due(memory: &[u32], core: u32, nth: u32, access: &Access) -> Entry
    requires within { access.now.addr < 4 * length memory.now }
    requires aligned { access.now.addr % width access.now.kind ≡ 0 }
    ensures due { result ≡ due memory.now core nth access.now }
{
    let word = memory[(access.addr / 4) as usize];
    let old = effects::part(access.kind, access.addr, word);
    made(core, nth, access, old)
}

/// Stores what an entry stored, if anything.
#[tactic(auto, unfolding(crate::specs::Memory::after))]
pub fn store(memory: &mut [u32], entry: &Entry)
    requires within { entry.now.addr < 4 * length memory.old }
    requires aligned { entry.now.addr % width entry.now.kind ≡ 0 }
    ensures stored { memory.new ≡ after memory.old entry.now }
{
    if let Some(value) = entry.new {
        let index = (entry.addr / 4) as usize;
        memory[index] = effects::with_part(entry.kind, entry.addr, memory[index], value);
    }
}
