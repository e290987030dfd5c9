//! What the parts of a transaction, and a hit, make of one cache.
ghost use Rattle.std.specs.Prelude.{◌≡◌, ℕ, ◌/◌, ◌%◌, true, length, slice_index, Some};
ghost use Rattle.mips_isa.specs.Kinds.{width};
ghost use Rattle.moesi_master.specs.Moesi.{is_held};
ghost use Rattle.letters.specs.Fold.{victim_of};
ghost use Rattle.cache_ram.specs.Lines.{letter_in, filled_in, IsVictim};
ghost use Rattle.cache_bus.specs.Caches.{Acted, Installed, Touched};

use access_log::{Entry, Letter};
use cache_ram::Cache;
use mips_isa::effects;
use moesi_master::letters;
use moesi_slave::tables;

/// The act of a cache on another one's transaction.
pub fn act(cache: &mut Cache, line: u32, im: bool)
    ensures acted { Acted line im cache.old cache.new }
{
    let letter = cache.letter(line);
    let after = tables::act(letter, im);
    if letters::is_held(letter) {
        if letters::is_held(after) {
            cache.set_letter(line, after);
        } else {
            cache.drop_line(line);
        }
    }
}

/// The end of a transaction in its master: the victim is dropped, and the line is there with its
/// letter.
#[tactic(auto, using(crate::proofs::LineLaws::keep_all))]
pub fn finish(cache: &mut Cache, line: u32, victim: Option<u32>, letter: Letter, words: [u32; 2])
    requires held { (v : ℕ) → victim ≡ Some v → IsVictim cache.old line v }
    requires victim { victim ≡ victim_of 1 (letter_in cache.old line) (filled_in cache.old (line % length cache.old)) }
    requires letter { is_held letter ≡ true }
    ensures installed { Installed line victim letter (slice_index words) cache.old cache.new }
{
    if letters::is_held(cache.letter(line)) {
        cache.set_letter(line, letter);
        return;
    }
    let Some(victim) = victim else {
        cache.fill(line, words, letter);
        return;
    };
    cache.drop_line(victim);
    cache.fill(line, words, letter);
}

/// What an access leaves in a cache that holds its line: the words and the letter after its store.
pub fn touch(cache: &mut Cache, entry: &Entry)
    requires held { is_held (letter_in cache.old (entry.now.addr / 8)) ≡ true }
    requires aligned { entry.now.addr % width entry.now.kind ≡ 0 }
    ensures touched { Touched entry.now cache.old cache.new }
{
    if let Some(value) = entry.new {
        let line = entry.addr / 8;
        let half = entry.addr / 4 % 2;
        let words = cache.words(line);
        let word = effects::with_part(entry.kind, entry.addr, words[half as usize], value);
        cache.set_letter(line, Letter::M);
        cache.write_word(line, half, word);
    }
}
