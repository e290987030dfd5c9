//! The machine and its calls.
ghost use Rattle.std.specs.Prelude.{◌≡◌, ◌≢◌, ◌+◌, ◌-◌, ◌*◌, ◌/◌, ◌%◌, ◌^◌, ◌<◌, ◌≤◌, Some, None, length, vec_len, IfOk, OnOk, OnErr, IfErr, IfSome, slice_get, map};
ghost use Rattle.std.specs.Option.{option_map};
ghost use Rattle.mips_isa.specs.Steps.{IsCode, stop_of};
ghost use Rattle.image_file.specs.Value.{start_memory, start_states};
ghost use Rattle.access_log.specs.Memory.{word_at};
ghost use Rattle.access_log.specs.Replay.{FlatMachine, memory_bytes, starting, started, moved, entered};
ghost use Rattle.seq_machine.specs.Reaching.{Reaches, CatchesUp};
ghost use Rattle.seq_machine.specs.Differences.{DiffersFirst, found_new, first_difference};
ghost use Rattle.seq_machine.specs.Entering.{Enters, EntersIn};

use crate::{Differs, NoMemory, Reach};
use access_log::{Core, Entry, Field, Found, due, store};
use image_file::{Image, start_memory, start_state};
use mips_isa::{CoreState, Next, Stop, steps};
use std::alloc::Global;
use std::marker::Model;

/// The code of an image, cores with their states and counts, and one flat memory.
#[derive(Drop)]
pub struct Machine {
    code: Vec<u32>,
    cores: Vec<Core>,
    memory: Vec<u32>,
}

impl Model for Machine {
    ghost use Rattle.access_log.specs.Replay.{FlatMachine};
    ghost use Rattle.seq_machine.specs.Sound.{IsSound};

    ghost Value = { FlatMachine };

    ghost view = { λ m. record { code = m.code.items; cores = m.cores.items; memory = m.memory.items } };

    ghost invariant = { λ m. IsSound (record { code = m.code.items; cores = m.cores.items; memory = m.memory.items }) };
}

/// So many cores at the start of a program.
fn starting_cores(alloc: Global, image: &Image, cores: u32) -> Result<Vec<Core>, NoMemory>
    ensures started { IfOk result (λ v. v.items ≡ map starting (start_states image.now cores)) }
    ensures len { IfOk result (λ v. vec_len v ≡ cores) }
{
    let mut started = Vec::new(alloc);
    for core in 0..cores {
        started.push(Core {
            state: start_state(image, core, cores),
            executed: 0,
        })?;
    }
    Ok(started)
}

/// Executes instructions of a core until so many are executed, or an access or a stop stands before.
fn catch_up_core(code: &[u32], memory_bytes: u32, core: &mut Core, nth: u32) -> Reach
    requires code { IsCode code.now }
    requires few { length code.now ≤ 65536 }
    ensures { Reaches code.now memory_bytes nth core.old result core.new }
{
    if core.executed > nth {
        return Reach::Passed(core.executed);
    }
    while core.executed < nth {
        match steps::next(code, memory_bytes, &core.state) {
            Next::Stops(_) => return Reach::StopAt(core.executed),
            Next::Asks(_) => return Reach::AccessAt(core.executed),
            Next::Goes(state) => {
                core.state = state;
                core.executed += 1;
            }
        }
    }
    Reach::There
}

/// What is due in the field `new`.
fn found_new(new: Option<u32>) -> Found
    ensures { result ≡ found_new new }
{
    match new {
        None => Found::Nothing,
        Some(word) => Found::Hex(word),
    }
}

/// The first field in which an entry differs from the one that is due, of the same core and number.
#[tactic(auto, unfolding(crate::specs::Differences::first_difference))]
fn first_difference(entry: &Entry, due: &Entry) -> Option<(Field, Found)>
    ensures { result ≡ first_difference entry.now due.now }
{
    if entry.kind != due.kind {
        Some((Field::Kind, Found::Kind(due.kind)))
    } else if entry.addr != due.addr {
        Some((Field::Addr, Found::Hex(due.addr)))
    } else if entry.old != due.old {
        Some((Field::Old, Found::Hex(due.old)))
    } else if entry.new != due.new {
        Some((Field::New, found_new(due.new)))
    } else {
        None
    }
}

/// Makes an entry of a core that has caught up to it, unless a field differs.
fn enter(code: &[u32], memory: &mut [u32], core: &mut Core, entry: &Entry) -> Option<(Field, Found)>
    requires code { IsCode code.now }
    requires few { length code.now ≤ 65536 }
    requires small { length memory.old ≤ 2 ^ 22 }
    requires nth { core.old.executed ≡ entry.now.nth }
    requires room { entry.now.nth < 2 ^ 32 - 1 }
    ensures { Enters code.now memory.old core.old entry.now result memory.new core.new }
{
    let Next::Asks(access) = steps::next(code, 4 * memory.len() as u32, &core.state) else {
        return Some((Field::Nth, Found::Nothing));
    };
    let due = due(memory, entry.core, core.executed, &access);
    if let Some(told) = first_difference(entry, &due) {
        return Some(told);
    }
    store(memory, entry);
    core.state = steps::finish(code, &core.state, entry.old);
    core.executed += 1;
    None
}

fn differs(entry: &Entry, field: Field, found: Found) -> Differs
    ensures { result ≡ record { entry = entry.now; field = field; found = found } }
{
    Differs {
        entry: *entry,
        field,
        found,
    }
}

impl Machine {
    /// The machine at the start of a program, with 1 to 8 cores. All its memory is taken here; the error says that there
    /// wasn't enough.
    #[tactic(auto, unfolding(access_log::specs::Replay::started))]
    pub fn new(alloc: Global, image: &Image, cores: u32) -> Result<Machine, NoMemory>
        requires some_cores { 1 ≤ cores }
        requires cores { cores ≤ 8 }
        ensures started { IfOk result (λ machine. machine ≡ started image.now.code (start_memory image.now) (start_states image.now cores)) }
        ensures cores { IfOk result (λ machine. length machine.cores ≡ cores) }
        ensures memory { IfOk result (λ machine. length machine.memory ≡ 2 * image.now.memory_lines) }
    {
        let memory = start_memory(alloc, image)?;
        let code = Vec::from_slice(alloc, &image.code)?;
        let cores = starting_cores(alloc, image, cores)?;
        Ok(Machine {
            code,
            cores,
            memory: memory.words,
        })
    }

    /// Executes instructions of a core until it has executed `nth` in all. It makes no access: where an access or a stop
    /// stands before, the core ends there.
    pub fn catch_up(&mut self, core: u32, nth: u32) -> Reach
        requires core { core < length self.old.cores }
        ensures reach { CatchesUp self.old core nth result self.new }
        ensures only { (reach : Reach) → (new : FlatMachine) → CatchesUp self.old core nth reach new → (reach ≡ result) × (new ≡ self.new) }
        ensures there { result ≡ Reach.There → moved core nth self.old ≡ Some self.new }
        ensures away { result ≢ Reach.There → moved core nth self.old ≡ None }
        ensures cores { length self.new.cores ≡ length self.old.cores }
        ensures memory { length self.new.memory ≡ length self.old.memory }
    {
        self.catch_up_in(core, nth)
    }

    fn catch_up_in(&mut self, core: u32, nth: u32) -> Reach
        requires { core < length self.old.cores }
        ensures { CatchesUp self.old core nth result self.new }
    {
        let memory_bytes = 4 * self.memory.len() as u32;
        let core = &mut self.cores[core as usize];
        catch_up_core(&self.code, memory_bytes, core, nth)
    }

    /// Makes an entry of a core that has caught up to it, unless a field differs.
    fn enter(&mut self, entry: &Entry) -> Option<(Field, Found)>
        requires core { entry.now.core < length self.old.cores }
        requires nth { IfSome (slice_get self.old.cores entry.now.core) (λ core. core.executed ≡ entry.now.nth) }
        requires room { entry.now.nth < 2 ^ 32 - 1 }
        ensures { IfSome (slice_get self.old.cores entry.now.core) (λ core. EntersIn self.old entry.now core result self.new) }
    {
        let core = &mut self.cores[entry.core as usize];
        enter(&self.code, &mut self.memory, core, entry)
    }

    /// Lets the core of an entry catch up to it, compares the entry with the access that the core then makes, and makes
    /// it.
    ///
    /// The error tells the first field that differs, by the order of [`Field`]; the access is not made then, and the core
    /// stays where it has caught up to. Where an access stands before, its number is due in `nth`; where a stop does, no
    /// access stands there, or the core has passed, nothing is due.
    pub fn apply(&mut self, entry: &Entry) -> Result<(), Differs>
        requires core { entry.now.core < length self.old.cores }
        requires nth { entry.now.nth < 2 ^ 32 - 1 }
        ensures ok { OnOk result (entered entry.now self.old ≡ Some self.new) }
        ensures err { OnErr result (entered entry.now self.old ≡ None) }
        ensures first { IfErr result (λ differs. DiffersFirst self.old entry.now differs self.new) }
        ensures cores { length self.new.cores ≡ length self.old.cores }
        ensures memory { length self.new.memory ≡ length self.old.memory }
    {
        match self.catch_up_in(entry.core, entry.nth) {
            Reach::There => {}
            Reach::AccessAt(m) => {
                return Err(differs(entry, Field::Nth, Found::Number(m as u64)));
            }
            Reach::StopAt(_) | Reach::Passed(_) => {
                return Err(differs(entry, Field::Nth, Found::Nothing));
            }
        }
        match self.enter(entry) {
            None => Ok(()),
            Some((field, found)) => Err(differs(entry, field, found)),
        }
    }

    /// How many instructions a core has executed.
    pub fn executed(&self, core: u32) -> u32
        requires core { core < length self.now.cores }
        ensures executed { option_map (λ c. c.executed) (slice_get self.now.cores core) ≡ Some result }
    {
        self.cores[core as usize].executed
    }

    /// The state of a core.
    pub fn state_of(&self, core: u32) -> &CoreState
        requires core { core < length self.now.cores }
        ensures state { option_map (λ c. c.state) (slice_get self.now.cores core) ≡ Some result.now }
    {
        &self.cores[core as usize].state
    }

    /// The stop at which a core is; `None` where its next instruction would be executed.
    pub fn stop_of(&self, core: u32) -> Option<Stop>
        requires core { core < length self.now.cores }
        ensures stop { option_map (λ c. stop_of self.now.code (memory_bytes self.now) c.state) (slice_get self.now.cores core) ≡ Some result }
    {
        steps::stop(
            &self.code,
            4 * self.memory.len() as u32,
            &self.cores[core as usize].state,
        )
    }

    /// The word that memory holds at a byte address.
    pub fn word(&self, addr: u32) -> u32
        requires aligned { addr % 4 ≡ 0 }
        requires within { addr < memory_bytes self.now }
        ensures word { result ≡ word_at self.now.memory addr }
    {
        self.memory[(addr / 4) as usize]
    }
}
