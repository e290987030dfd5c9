//! Main memory: index i of the list is the word at the byte address 4i, and line k has the words 2k
//! and 2k + 1.
ghost use Rattle.std.specs.Prelude.{◌≡◌, ◌≢◌, ℕ, ◌<◌, ◌≤◌, ◌+◌, ◌*◌, ◌/◌, ◌%◌, ◌^◌, true, false};
ghost use Rattle.std.specs.Prelude.{length, vec_len, slice_index, slice_set, List, Some, None, IfSome, IfNone};
ghost use Rattle.moesi_master.specs.Moesi.{is_held, is_dirty};
ghost use Rattle.coherence.specs.Coherence.{Agrees, IsCoherent, flushed};
ghost use Rattle.cache_bus.specs.Caches.{letters_in, words_in};

use crate::caches::{letter_at, words_at};
use cache_ram::Cache;
use moesi_master::letters;

/// The words of a line.
pub fn line_at(main: &Vec<u32>, line: u32) -> [u32; 2]
    requires inside { 2 * line + 1 < vec_len main.now }
    ensures words { (h : ℕ) → h < 2 → slice_index result h ≡ slice_index main.now.items (2 * line + h) }
{
    [main[2 * line as usize], main[2 * line as usize + 1]]
}

fn set_line(main: &mut Vec<u32>, line: u32, words: [u32; 2])
    requires inside { 2 * line + 1 < vec_len main.old }
    ensures written { main.new.items
        ≡ slice_set (slice_set main.old.items (2 * line) (slice_index words 0)) (2 * line + 1) (slice_index words 1) }
{
    main[2 * line as usize] = words[0];
    main[2 * line as usize + 1] = words[1];
}

/// Writes a cache's victim back, where main memory is behind it.
pub fn flush(main: &mut Vec<u32>, caches: &Vec<Cache>, master: u32, victim: Option<u32>)
    requires master { master < length caches.now.items }
    requires inside { (v : ℕ) → victim ≡ Some v → 2 * v + 1 < vec_len main.old }
    ensures flushed { (memory : List ℕ) → Agrees (letters_in caches.now.items) (words_in caches.now.items) memory
        → main.new.items ≡ flushed (letters_in caches.now.items) memory main.old.items master victim }
{
    if let Some(line) = victim {
        if letters::is_dirty(letter_at(caches, master, line)) {
            let words = words_at(caches, master, line);
            set_line(main, line, words);
        }
    }
}

/// The words of a line, from the cache that has to supply them, else from main memory.
pub fn supply(main: &Vec<u32>, caches: &Vec<Cache>, line: u32, di: Option<u32>) -> [u32; 2]
    requires below { (d : ℕ) → di ≡ Some d → d < length caches.now.items }
    requires held { (d : ℕ) → di ≡ Some d → is_held (letters_in caches.now.items d line) ≡ true }
    requires inside { 2 * line + 1 < vec_len main.now }
    ensures owner { (d : ℕ) → di ≡ Some d → (h : ℕ) → h < 2 → slice_index result h ≡ words_in caches.now.items d (2 * line + h) }
    ensures main { di ≡ None → (h : ℕ) → h < 2 → slice_index result h ≡ slice_index main.now.items (2 * line + h) }
{
    match di {
        Some(owner) => words_at(caches, owner, line),
        None => line_at(main, line),
    }
}

/// The cache that owns a line, where main memory is behind one.
fn owner_of(caches: &Vec<Cache>, line: u32) -> Option<u32>
    requires few { length caches.now.items ≤ 16 }
    ensures below { IfSome result (λ owner. owner < length caches.now.items) }
    ensures owner { IfSome result (λ owner. is_dirty (letters_in caches.now.items owner line) ≡ true) }
    ensures none { IfNone result ((cache : ℕ) → is_dirty (letters_in caches.now.items cache line) ≡ false) }
{
    for cache in 0..caches.len() as u32 {
        if letters::is_dirty(letter_at(caches, cache, line)) {
            return Some(cache);
        }
    }
    None
}

/// Writes the words of a line's owner to main memory.
fn write_owned(main: &mut Vec<u32>, caches: &Vec<Cache>, line: u32)
    requires few { length caches.now.items ≤ 16 }
    requires inside { 2 * line + 1 < vec_len main.old }
    ensures here { (memory : List ℕ) → Agrees (letters_in caches.now.items) (words_in caches.now.items) memory
        → ((word : ℕ) → word / 2 ≡ line → ((cache : ℕ) → is_dirty (letters_in caches.now.items cache line) ≡ false)
        → slice_index main.old.items word ≡ slice_index memory word)
        → (word : ℕ) → word / 2 ≡ line → slice_index main.new.items word ≡ slice_index memory word }
    ensures others { (word : ℕ) → word / 2 ≢ line → slice_index main.new.items word ≡ slice_index main.old.items word }
    ensures len { vec_len main.new ≡ vec_len main.old }
{
    if let Some(owner) = owner_of(caches, line) {
        let words = words_at(caches, owner, line);
        set_line(main, line, words);
    }
}

/// Writes the words of each line's owner to main memory.
pub fn gather(main: &mut Vec<u32>, caches: &Vec<Cache>)
    requires few { length caches.now.items ≤ 16 }
    requires small { vec_len main.old < 2 ^ 31 }
    requires even { vec_len main.old % 2 ≡ 0 }
    ensures gathered { (memory : List ℕ)
        → IsCoherent (length caches.now.items) (letters_in caches.now.items) memory main.old.items
        → Agrees (letters_in caches.now.items) (words_in caches.now.items) memory → main.new.items ≡ memory }
{
    for line in 0..main.len() as u32 / 2 {
        write_owned(main, caches, line);
    }
}
