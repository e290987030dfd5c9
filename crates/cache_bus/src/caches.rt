//! What the parts of a transaction, and a hit, do to a list of caches.
ghost use Rattle.std.specs.Prelude.{◌≡◌, ◌≢◌, ℕ, ◌<◌, ◌+◌, ◌*◌, ◌/◌, ◌%◌, ◌++◌, ◌∷◌, [], true, length, slice_index, Some, IfOk};
ghost use Rattle.mips_isa.specs.Kinds.{part, width};
ghost use Rattle.access_log.specs.declared.Item.TheVariants.{Done};
ghost use Rattle.access_log.specs.Requests.{entry_of};
ghost use Rattle.moesi_master.specs.Moesi.{is_held};
ghost use Rattle.letters.specs.Fold.{victim_of};
ghost use Rattle.cache_ram.specs.Lines.{IsVictim};
ghost use Rattle.cache_bus.specs.Caches.{cache_at, letters_in, words_in, lines_in, is_victim_dirty, AreEmpty, Acted, Installed, Touched};

use crate::{NoMemory, line};
use access_log::{History, Item, Letter, Request, made};
use cache_ram::Cache;
use mips_isa::effects;
use moesi_master::letters;
use std::alloc::Global;

/// So many empty caches.
pub fn empty(alloc: Global, count: u32, sets: u32) -> Result<Vec<Cache>, NoMemory>
    requires sets { 0 < sets }
    ensures empty { IfOk result (λ caches. AreEmpty count sets caches.items) }
{
    let mut caches = Vec::new(alloc);
    for made in 0..count {
        let _ = made;
        let cache = Cache::new(alloc, sets)?;
        caches.push(cache)?;
    }
    Ok(caches)
}

/// The letter of a line in a cache.
pub fn letter_at(caches: &Vec<Cache>, cache: u32, line: u32) -> Letter
    requires below { cache < length caches.now.items }
    ensures letter { result ≡ letters_in caches.now.items cache line }
{
    caches[cache as usize].letter(line)
}

/// The words of a line that a cache holds.
pub fn words_at(caches: &Vec<Cache>, cache: u32, line: u32) -> [u32; 2]
    requires below { cache < length caches.now.items }
    requires held { is_held (letters_in caches.now.items cache line) ≡ true }
    ensures words { (h : ℕ) → h < 2 → slice_index result h ≡ words_in caches.now.items cache (2 * line + h) }
{
    caches[cache as usize].words(line)
}

/// The word with a number, where its line is held.
pub fn read(caches: &Vec<Cache>, cache: u32, index: u32) -> u32
    requires below { cache < length caches.now.items }
    requires held { is_held (letters_in caches.now.items cache (index / 2)) ≡ true }
    ensures word { result ≡ words_in caches.now.items cache index }
{
    let words = words_at(caches, cache, index / 2);
    words[(index % 2) as usize]
}

/// The line that makes room for another one in a cache.
pub fn victim_at(caches: &Vec<Cache>, cache: u32, line: u32) -> Option<u32>
    requires below { cache < length caches.now.items }
    ensures victim { result ≡ victim_of 1 (letters_in caches.now.items cache line)
        (lines_in caches.now.items cache (line % length (cache_at caches.now.items cache))) }
    ensures held { (v : ℕ) → result ≡ Some v → IsVictim (cache_at caches.now.items cache) line v }
{
    caches[cache as usize].victim(line)
}

/// Whether main memory is behind a cache's victim.
pub fn is_victim_dirty(caches: &Vec<Cache>, cache: u32, victim: Option<u32>) -> bool
    requires below { cache < length caches.now.items }
    ensures dirty { result ≡ is_victim_dirty (letters_in caches.now.items) cache victim }
{
    match victim {
        None => false,
        Some(line) => letters::is_dirty(letter_at(caches, cache, line)),
    }
}

/// The act of a cache on another one's transaction.
pub fn act(caches: &mut Vec<Cache>, cache: u32, line: u32, im: bool)
    requires below { cache < length caches.old.items }
    ensures here { Acted line im (cache_at caches.old.items cache) (cache_at caches.new.items cache) }
    ensures others { (other : ℕ) → other ≢ cache → cache_at caches.new.items other ≡ cache_at caches.old.items other }
    ensures len { length caches.new.items ≡ length caches.old.items }
{
    let cache = &mut caches[cache as usize];
    line::act(cache, line, im);
}

/// The end of a cache's own transaction.
pub fn finish(
    caches: &mut Vec<Cache>,
    master: u32,
    line: u32,
    victim: Option<u32>,
    letter: Letter,
    words: [u32; 2],
)
    requires master { master < length caches.old.items }
    requires held { (v : ℕ) → victim ≡ Some v → IsVictim (cache_at caches.old.items master) line v }
    requires victim { victim ≡ victim_of 1 (letters_in caches.old.items master line)
        (lines_in caches.old.items master (line % length (cache_at caches.old.items master))) }
    requires letter { is_held letter ≡ true }
    ensures here { Installed line victim letter (slice_index words) (cache_at caches.old.items master) (cache_at caches.new.items master) }
    ensures others { (other : ℕ) → other ≢ master → cache_at caches.new.items other ≡ cache_at caches.old.items other }
    ensures len { length caches.new.items ≡ length caches.old.items }
{
    let cache = &mut caches[master as usize];
    line::finish(cache, line, victim, letter, words);
}

/// Does an access of a core whose cache holds the line, and appends its entry to the history. It
/// gives what was there.
#[tactic(auto, unfolding(access_log::specs::Requests::entry_of, access_log::specs::Requests::access_of))]
pub fn perform(caches: &mut Vec<Cache>, history: &mut History, core: u32, request: &Request) -> u32
    requires core { core < 8 }
    requires below { 2 * core + 1 < length caches.old.items }
    requires held { is_held (letters_in caches.old.items (2 * core + 1) (request.now.addr / 8)) ≡ true }
    requires aligned { request.now.addr % width request.now.kind ≡ 0 }
    requires room { 0 < history.old.spare }
    ensures old { result ≡ part request.now.kind request.now.addr (words_in caches.old.items (2 * core + 1) (request.now.addr / 4)) }
    ensures items { history.new.items ≡ history.old.items ++ Done (entry_of core request.now result) ∷ [] }
    ensures spare { history.new.spare + 1 ≡ history.old.spare }
    ensures touched { Touched (entry_of core request.now result)
        (cache_at caches.old.items (2 * core + 1)) (cache_at caches.new.items (2 * core + 1)) }
    ensures others { (other : ℕ) → other ≢ 2 * core + 1 → cache_at caches.new.items other ≡ cache_at caches.old.items other }
    ensures len { length caches.new.items ≡ length caches.old.items }
{
    let index = 2 * core + 1;
    let word = read(caches, index, request.addr / 4);
    let old = effects::part(request.kind, request.addr, word);
    let entry = made(core, request.nth, &request.access(), old);
    let cache = &mut caches[index as usize];
    line::touch(cache, &entry);
    history.push(Item::Done(entry));
    old
}
