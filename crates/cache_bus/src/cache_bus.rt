//! Caches, main memory, the bus and the history.
ghost use Rattle.std.specs.Prelude.{◌≡◌, ◌≢◌, ℕ, ◌<◌, ◌≤◌, ◌+◌, ◌*◌, ◌++◌, true, false, length, slice_index, IfOk};
ghost use Rattle.image_file.specs.Value.{start_memory};
ghost use Rattle.access_log.specs.Items.{after_items};
ghost use Rattle.moesi_master.specs.declared.Phase.TheVariants as phase;
ghost use Rattle.moesi_master.specs.Phases.{is_on};
ghost use Rattle.letters.specs.Fold.{no_letters};
ghost use Rattle.mem_port.specs.Ports.{core_of, MayAsk, items_of};
ghost use Rattle.mem_port.specs.Flat.{index_of};
ghost use Rattle.coherence.specs.Coherence.{main_after};
ghost use Rattle.cache_bus.specs.Caches.{caches_of};
ghost use Rattle.cache_bus.specs.View.{serves_now, IsAnswer, port_of};
ghost use Rattle.cache_bus.specs.Calls.{IsEmpty, Keeps, StaysOn, GoesOn, Abandons, StillFollows, Begins, Ends};

use crate::bus::{Bus, looked, serves};
use crate::{NoMemory, caches, main_memory, slaves};
use access_log::{History, Item, Request, Transaction};
use cache_ram::Cache;
use image_file::{Image, Words, start_memory};
use mem_port::Port;
use mips_isa::effects;
use moesi_master::{Phase, letters, phases};
use moesi_slave::{SlavePhase, tables};
use std::alloc::Global;
use std::marker::Model;

/// The caches of 1 to 8 cores with their bus, main memory and the history of what was done.
#[derive(Drop)]
pub struct CacheBus<'a> {
    image: &'a Image,
    cores: u32,
    sets: u32,
    caches: Vec<Cache>,
    main: Vec<u32>,
    bus: Bus,
    slaves: Vec<SlavePhase>,
    history: History,
}

impl<'a> Model for CacheBus<'a> {
    ghost use Rattle.cache_bus.specs.View.{CacheBusView};
    ghost use Rattle.cache_bus.specs.Inside.{Holds};

    ghost Value = { CacheBusView };

    ghost view = { λ s. record {
      image = s.image.now;
      cores = s.cores;
      sets = s.sets;
      items = s.history.items;
      spare = s.history.spare;
      bus = s.bus;
      slaves = s.slaves.items;
    } };

    ghost invariant = { λ s. Holds (record {
      image = s.image.now;
      cores = s.cores;
      sets = s.sets;
      caches = s.caches.items;
      main = s.main.items;
      bus = s.bus;
      slaves = s.slaves.items;
      items = s.history.items;
    }) };
}

impl<'a> CacheBus<'a> {
    /// Empty caches of so many sets each, in front of the memory of an image, with room for so many
    /// items. All their memory is taken here; the error says that there wasn't enough.
    pub fn new(
        alloc: Global,
        image: &'a Image,
        cores: u32,
        sets: u32,
        items: u32,
    ) -> Result<CacheBus<'a>, NoMemory>
        requires some_cores { 1 ≤ cores }
        requires cores { cores ≤ 8 }
        requires sets { 0 < sets }
        ensures empty { IfOk result (λ s. IsEmpty image.now cores sets s) }
        ensures spare { IfOk result (λ s. s.spare ≡ items) }
    {
        let main = start_memory(alloc, image)?.words;
        let caches = caches::empty(alloc, 2 * cores, sets)?;
        let slaves = vec![in alloc; SlavePhase::Fresh; 2 * cores as usize]?;
        let history = History::new(alloc, items)?;
        Ok(CacheBus {
            image,
            cores,
            sets,
            caches,
            main,
            bus: Bus::free(),
            slaves,
            history,
        })
    }

    /// The transaction that is on.
    pub fn bus(&self) -> Bus
        ensures bus { result ≡ self.now.bus }
    {
        self.bus
    }

    /// The transition that comes next.
    pub fn phase(&self) -> Phase
        ensures phase { result ≡ self.now.bus.phase }
    {
        self.bus.phase
    }

    /// Whether a request on a cache is done as it is served.
    pub fn serves(&self, cache: u32, request: &Request) -> bool
        requires cache { cache < 2 * self.now.cores }
        ensures serves { result ≡ serves_now self.now cache request.now }
    {
        let line = request.addr / 8;
        let letter = caches::letter_at(&self.caches, cache, line);
        let slave = slaves::slave_at(&self.slaves, cache);
        serves(
            letter,
            effects::stores(request.kind),
            slave,
            line == self.bus.line,
        )
    }

    /// Does a request that is a hit, an access with its entry. It gives the word of code, or what was
    /// there before the access.
    pub fn answer(&mut self, port: Port, request: &Request) -> u32
        requires core { core_of port < self.old.cores }
        requires proper { MayAsk self.old.image port request.now }
        requires hit { serves_now self.old (index_of port) request.now ≡ true }
        requires other { is_on self.old.bus.phase ≡ true → index_of port ≢ self.old.bus.master }
        requires room { 1 ≤ self.old.spare }
        ensures kept { Keeps self.old self.new }
        ensures bus { self.new.bus ≡ self.old.bus }
        ensures slaves { self.new.slaves ≡ self.old.slaves }
        ensures items { self.new.items ≡ self.old.items ++ items_of port request.now result }
        ensures word { IsAnswer self.old port request.now result }
        ensures spare { self.old.spare ≤ self.new.spare + 1 }
        ensures follows { StillFollows self.old self.new }
    {
        match port {
            Port::Fetch(core) => caches::read(&self.caches, 2 * core, request.addr / 4),
            Port::Access(core) => caches::perform(
                &mut self.caches,
                &mut self.history,
                core,
                request,
            ),
        }
    }

    /// Begins a transaction for a request that is no hit.
    pub fn begin(&mut self, cache: u32, request: &Request)
        requires off { self.old.bus.phase ≡ phase.Off }
        requires cache { cache < 2 * self.old.cores }
        requires proper { MayAsk self.old.image (port_of cache) request.now }
        requires miss { serves_now self.old cache request.now ≡ false }
        ensures begins { Begins cache request.now self.old self.new }
    {
        let line = request.addr / 8;
        let im = effects::stores(request.kind);
        let letter = caches::letter_at(&self.caches, cache, line);
        let victim = caches::victim_at(&self.caches, cache, line);
        let is_dirty = caches::is_victim_dirty(&self.caches, cache, victim);
        self.bus = Bus {
            phase: phases::granted(is_dirty),
            master: cache,
            line,
            im,
            victim,
            abandoned: false,
            supply: letters::needs_supply(letter, im),
            ch: 0,
            di: None,
            low: 0,
            high: 0,
        };
    }

    /// The next transition, but the last one. Where several caches have to look or to act, it is the
    /// one at the place `choice` modulo their number, in rising order.
    pub fn advance(&mut self, choice: u32)
        requires on { is_on self.old.bus.phase ≡ true }
        requires more { self.old.bus.phase ≢ phase.Finish }
        ensures goes_on { GoesOn self.old self.new }
    {
        match self.bus.phase {
            Phase::Flush => self.flush(),
            Phase::Address => self.bus.phase = Phase::Look,
            Phase::Look => self.look(choice),
            Phase::Supply => self.supply(),
            Phase::Act => self.act(choice),
            Phase::Off | Phase::Finish => unreachable!(),
        }
    }

    /// A dirty victim's words go to main memory.
    fn flush(&mut self)
        requires at { self.old.bus.phase ≡ phase.Flush }
        ensures goes_on { GoesOn self.old self.new }
    {
        let Bus { master, victim, .. } = self.bus;
        main_memory::flush(&mut self.main, &self.caches, master, victim);
        self.bus.phase = Phase::Address;
    }

    /// A cache latches what it holds and owns of the line.
    fn look(&mut self, choice: u32)
        requires at { self.old.bus.phase ≡ phase.Look }
        ensures goes_on { GoesOn self.old self.new }
    {
        let left = slaves::count_left(&self.slaves, self.bus.master, true);
        let cache = slaves::next(&self.slaves, self.bus.master, true, choice % left);
        let letter = caches::letter_at(&self.caches, cache, self.bus.line);
        let seen = tables::look(letter);
        self.slaves[cache as usize] = SlavePhase::Latched(seen);
        self.bus = looked(self.bus, cache, seen, left - 1);
    }

    /// The words come from the line's owner, else from main memory.
    fn supply(&mut self)
        requires at { self.old.bus.phase ≡ phase.Supply }
        ensures goes_on { GoesOn self.old self.new }
    {
        let Bus { line, di, .. } = self.bus;
        let [low, high] = main_memory::supply(&self.main, &self.caches, line, di);
        self.bus.low = low;
        self.bus.high = high;
        self.bus.phase = Phase::Act;
    }

    /// A cache's letter changes.
    fn act(&mut self, choice: u32)
        requires at { self.old.bus.phase ≡ phase.Act }
        ensures goes_on { GoesOn self.old self.new }
    {
        let Bus {
            master,
            line,
            im,
            supply,
            ..
        } = self.bus;
        let left = slaves::count_left(&self.slaves, master, false);
        let cache = slaves::next(&self.slaves, master, false, choice % left);
        caches::act(&mut self.caches, cache, line, im);
        self.slaves[cache as usize] = SlavePhase::Acted;
        self.bus.phase = phases::after(Phase::Act, left - 1, supply);
    }

    /// The last transition: the transaction ends, and goes to the history.
    pub fn end(&mut self)
        requires at { self.old.bus.phase ≡ phase.Finish }
        requires room { 1 ≤ self.old.spare }
        ensures ends { Ends self.old self.new }
    {
        let Bus {
            master,
            line,
            im,
            victim,
            ch,
            di,
            low,
            high,
            ..
        } = self.bus;
        let letter = letters::after_finish(im, ch);
        caches::finish(&mut self.caches, master, line, victim, letter, [low, high]);
        self.history.push(Item::Bus(Transaction {
            master,
            line,
            im,
            ch,
            di,
            victim,
            letter,
        }));
        slaves::refresh(&mut self.slaves);
        self.bus.phase = Phase::Off;
    }

    /// The transaction that is on goes on until its end is due.
    fn run(&mut self)
        requires on { is_on self.old.bus.phase ≡ true }
        ensures at { self.new.bus.phase ≡ phase.Finish }
        ensures stays { StaysOn self.old self.new }
    {
        while self.phase() != Phase::Finish {
            self.advance(0);
        }
    }

    /// The transaction that is on goes on to its end.
    pub fn transact(&mut self)
        requires on { is_on self.old.bus.phase ≡ true }
        requires room { 1 ≤ self.old.spare }
        ensures ends { Ends self.old self.new }
    {
        self.run();
        self.end();
    }

    /// The request of the transaction that is on is withdrawn. The transaction goes on.
    pub fn abandon(&mut self)
        ensures abandons { Abandons self.old self.new }
    {
        self.bus.abandoned = true;
    }

    /// The words that main memory holds for a line, whatever the caches hold, where no transaction is
    /// on: those that the transactions wrote back.
    pub fn in_memory(&self, line: u32) -> [u32; 2]
        requires off { self.now.bus.phase ≡ phase.Off }
        requires inside { line < self.now.image.memory_lines }
        ensures words { (half : ℕ) → half < 2 → slice_index result half
            ≡ slice_index (main_after (caches_of self.now.sets) no_letters
            (start_memory self.now.image) (start_memory self.now.image) self.now.items) (2 * line + half) }
    {
        main_memory::line_at(&self.main, line)
    }

    /// The words of memory, of each line those of the cache that owns it, and the history.
    pub fn into_parts(self) -> (Words, History)
        requires off { self.bus.phase ≡ phase.Off }
        ensures words { result.0 ≡ after_items (start_memory self.entry.image) self.entry.items }
        ensures items { result.1.items ≡ self.entry.items }
    {
        let mut main = self.main;
        main_memory::gather(&mut main, &self.caches);
        (Words { words: main }, self.history)
    }
}
