//! All caches together.
ghost use Rattle.std.specs.Prelude.{◌≡◌, ◌≢◌, ℕ, ◌^◌, ◌<◌, ◌≤◌, Bool, ◌&&◌, not, ◌==◌, if◌then◌else◌, [], length, get_or, IfOk};
ghost use Rattle.moesi_master.specs.Moesi.{is_held, is_dirty};
ghost use Rattle.letters.specs.Fold.{holders, supplier_of, victim_of};
ghost use Rattle.item_check.specs.Held.{numbers, set_for, letter_at, acted_beside, HaveSets};

use crate::NoMemory;
use crate::cache::HeldSets;
use access_log::Letter;
use moesi_master::letters;
use std::alloc::Global;

/// So many caches of so many sets, without a line.
pub(crate) fn empty(alloc: Global, count: u32, sets: u32) -> Result<Vec<HeldSets>, NoMemory>
    ensures count { IfOk result (λ caches. length caches.items ≡ count) }
    ensures sets { IfOk result (λ caches. (cache : ℕ) → cache < count → length (get_or caches.items cache []) ≡ sets) }
    ensures empty { IfOk result (λ caches. (cache set : ℕ) → get_or (get_or caches.items cache []) set [] ≡ []) }
{
    let mut caches = Vec::with_capacity(alloc, count as usize)?;
    for _ in 0..count {
        caches.push_reserved(HeldSets::new(alloc, sets)?);
    }
    Ok(caches)
}

/// The letter of a line in a cache.
pub(crate) fn letter_at(caches: &[HeldSets], cache: usize, line: u32) -> Letter
    requires cache { cache < length caches.now }
    requires sets { HaveSets caches.now }
    ensures letter { result ≡ letter_at caches.now cache line }
{
    caches[cache].letter(line)
}

/// The line that makes room for another in a cache, where a set has room for so many.
pub(crate) fn victim_at(caches: &[HeldSets], cache: usize, line: u32, ways: u32) -> Option<u32>
    requires cache { cache < length caches.now }
    requires sets { HaveSets caches.now }
    ensures victim { result ≡ victim_of ways (letter_at caches.now cache line) (numbers (set_for (get_or caches.now cache []) line)) }
{
    caches[cache].victim(line, ways)
}

/// The bit of a cache beside the master, where it holds a line.
fn holder(caches: &[HeldSets], master: u32, line: u32, cache: usize) -> u16
    requires cache { cache < length caches.now }
    requires few { cache < 16 }
    requires sets { HaveSets caches.now }
    ensures bit { result ≡ (if not (cache == master) && is_held (letter_at caches.now cache line) then 2 ^ cache else 0) }
    ensures most { result ≤ 2 ^ cache }
{
    if cache != master as usize && letters::is_held(letter_at(caches, cache, line)) {
        1 << cache
    } else {
        0
    }
}

/// The caches beside the master that hold a line: bit k stands for cache k.
pub(crate) fn holders(caches: &[HeldSets], master: u32, line: u32) -> u16
    requires few { length caches.now ≤ 16 }
    requires sets { HaveSets caches.now }
    ensures holders { result ≡ holders (letter_at caches.now) master line (length caches.now) }
{
    let mut ch = 0;
    for cache in 0..caches.len() {
        ch += holder(caches, master, line, cache);
    }
    ch
}

/// Whether a cache supplies a line's words to the master.
fn is_supplier(caches: &[HeldSets], master: u32, line: u32, cache: usize) -> bool
    requires cache { cache < length caches.now }
    requires sets { HaveSets caches.now }
    ensures supplier { result ≡ (not (cache == master) && is_dirty (letter_at caches.now cache line)) }
{
    cache != master as usize && letters::is_dirty(letter_at(caches, cache, line))
}

/// The cache that supplies a line's words to the master.
pub(crate) fn supplier(caches: &[HeldSets], master: u32, line: u32) -> Option<u32>
    requires few { length caches.now ≤ 16 }
    requires sets { HaveSets caches.now }
    ensures supplier { result ≡ supplier_of (letter_at caches.now) master line (length caches.now) }
{
    let mut di = None;
    for cache in 0..caches.len() {
        if is_supplier(caches, master, line, cache) {
            di = Some(cache as u32);
        }
    }
    di
}

/// The master's transaction of a line acts on all other caches.
pub(crate) fn act(caches: &mut [HeldSets], master: u32, line: u32, im: bool)
    requires sets { HaveSets caches.old }
    ensures count { length caches.new ≡ length caches.old }
    ensures caches { (cache : ℕ) → cache < length caches.old
        → get_or caches.new cache [] ≡ acted_beside master line im cache (get_or caches.old cache []) }
{
    for cache in 0..caches.len() {
        if cache != master as usize {
            caches[cache].act(line, im);
        }
    }
}
