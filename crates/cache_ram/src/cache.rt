//! A cache with one line a set.
ghost use Rattle.std.specs.Prelude.{false, true, ◌≡◌, ◌≢◌, ℕ, ◌<◌, ◌≤◌, ◌+◌, ◌*◌, ◌/◌, ◌%◌, ◌++◌, ◌∷◌, []};
ghost use Rattle.std.specs.Prelude.{IfOk, length, slice_index, Some, vec_len};
ghost use Rattle.access_log.specs.declared.Letter.TheVariants.{I};
ghost use Rattle.moesi_master.specs.Moesi.{is_held};
ghost use Rattle.letters.specs.Fold.{victim_of};
ghost use Rattle.cache_ram.specs.Lines.{letter_in, word_in, filled_in, without, IsVictim};

use crate::NoMemory;
use crate::line::Line;
use access_log::Letter;
use std::alloc::Global;
use std::marker::Model;

/// A cache holds at most one line in each of its sets. A line stands in the set with the number that
/// is the rest of its own by the number of sets.
#[derive(Drop)]
pub struct Cache {
    slots: Vec<Option<Line>>,
}

impl Model for Cache {
    ghost use Rattle.std.specs.Prelude.{List, Option};
    ghost use Rattle.cache_ram.specs.declared.line.Line.{Line};
    ghost use Rattle.cache_ram.specs.Lines.{IsSound};

    ghost Value = { List (Option Line) };

    ghost view = { λ cache. cache.slots.items };

    ghost invariant = { λ cache. IsSound cache.slots.items };
}

impl Cache {
    /// An empty cache with so many sets. All its memory is taken here; the error says that there
    /// wasn't enough.
    pub fn new(alloc: Global, sets: u32) -> Result<Cache, NoMemory>
        requires some { 0 < sets }
        ensures sets { IfOk result (λ cache. length cache ≡ sets) }
        ensures letters { IfOk result (λ cache. (line : ℕ) → letter_in cache line ≡ I) }
        ensures filled { IfOk result (λ cache. (set : ℕ) → filled_in cache set ≡ []) }
    {
        let slots = vec![in alloc; None; sets as usize]?;
        Ok(Cache { slots })
    }

    /// The set of a line.
    fn set(&self, line: u32) -> usize
        ensures set { result ≡ line % length self.now }
        ensures within { result < length self.now }
    {
        line as usize % self.slots.len()
    }

    /// The letter in which a line is held, I exactly where it isn't.
    pub fn letter(&self, line: u32) -> Letter
        ensures letter { result ≡ letter_in self.now line }
        ensures absent { is_held result ≡ false
            → without line (filled_in self.now (line % length self.now)) ≡ filled_in self.now (line % length self.now) }
    {
        match self.slots[self.set(line)] {
            Some(held) if held.line == line => held.letter,
            _ => Letter::I,
        }
    }

    /// The two words of a line that is held.
    pub fn words(&self, line: u32) -> [u32; 2]
        requires held { is_held (letter_in self.now line) ≡ true }
        ensures words { (half : ℕ) → half < 2 → slice_index result half ≡ word_in self.now (2 * line + half) }
    {
        let Some(held) = self.slots[self.set(line)] else {
            unreachable!()
        };
        [held.low, held.high]
    }

    /// The line that has to go before a line can be filled: none where that is held or its set has
    /// room, else the first of its set in the order of fill.
    pub fn victim(&self, line: u32) -> Option<u32>
        ensures victim { result ≡ victim_of 1 (letter_in self.now line) (filled_in self.now (line % length self.now)) }
        ensures goes { (victim : ℕ) → result ≡ Some victim → IsVictim self.now line victim }
    {
        match self.slots[self.set(line)] {
            Some(held) if held.line != line => Some(held.line),
            _ => None,
        }
    }

    /// Holds a line that is held with another letter, which isn't I.
    pub fn set_letter(&mut self, line: u32, letter: Letter)
        requires held { is_held (letter_in self.old line) ≡ true }
        requires to_held { is_held letter ≡ true }
        ensures same { letter_in self.new line ≡ letter }
        ensures other { (l : ℕ) → l ≢ line → letter_in self.new l ≡ letter_in self.old l }
        ensures words { (i : ℕ) → word_in self.new i ≡ word_in self.old i }
        ensures filled { (set : ℕ) → filled_in self.new set ≡ filled_in self.old set }
        ensures sets { length self.new ≡ length self.old }
    {
        let set = self.set(line);
        let Some(held) = self.slots[set] else {
            unreachable!()
        };
        let changed = Line {
            line,
            letter,
            ..held
        };
        self.slots[set] = Some(changed);
    }

    /// Writes one of the two words of a line that is held: 0 is the first and 1 the second.
    pub fn write_word(&mut self, line: u32, half: u32, value: u32)
        requires held { is_held (letter_in self.old line) ≡ true }
        requires half { half < 2 }
        ensures same { word_in self.new (2 * line + half) ≡ value }
        ensures other { (i : ℕ) → i ≢ 2 * line + half → word_in self.new i ≡ word_in self.old i }
        ensures letters { (l : ℕ) → letter_in self.new l ≡ letter_in self.old l }
        ensures filled { (set : ℕ) → filled_in self.new set ≡ filled_in self.old set }
        ensures sets { length self.new ≡ length self.old }
    {
        let set = self.set(line);
        let Some(held) = self.slots[set] else {
            unreachable!()
        };
        if half == 0 {
            self.slots[set] = Some(Line {
                line,
                low: value,
                ..held
            });
        } else {
            self.slots[set] = Some(Line {
                line,
                high: value,
                ..held
            });
        }
    }

    /// Holds a line that isn't held, in a set that has room, with a letter that isn't I. It is the
    /// last of its set in the order of fill.
    pub fn fill(&mut self, line: u32, words: [u32; 2], letter: Letter)
        requires not_held { letter_in self.old line ≡ I }
        requires room { length (filled_in self.old (line % length self.old)) < 1 }
        requires to_held { is_held letter ≡ true }
        ensures same { letter_in self.new line ≡ letter }
        ensures other { (l : ℕ) → l ≢ line → letter_in self.new l ≡ letter_in self.old l }
        ensures words_here { (half : ℕ) → half < 2 → word_in self.new (2 * line + half) ≡ slice_index words half }
        ensures words { (i : ℕ) → i / 2 ≢ line → word_in self.new i ≡ word_in self.old i }
        ensures filled { filled_in self.new (line % length self.old) ≡ filled_in self.old (line % length self.old) ++ line ∷ [] }
        ensures filled_else { (set : ℕ) → set ≢ line % length self.old → filled_in self.new set ≡ filled_in self.old set }
        ensures sets { length self.new ≡ length self.old }
    {
        let set = self.set(line);
        let [low, high] = words;
        self.slots[set] = Some(Line {
            line,
            letter,
            low,
            high,
        });
    }

    /// Holds a line that is held no more. The others of its set keep their order.
    pub fn drop_line(&mut self, line: u32)
        requires held { is_held (letter_in self.old line) ≡ true }
        ensures same { letter_in self.new line ≡ I }
        ensures other { (l : ℕ) → l ≢ line → letter_in self.new l ≡ letter_in self.old l }
        ensures words { (i : ℕ) → i / 2 ≢ line → word_in self.new i ≡ word_in self.old i }
        ensures filled { filled_in self.new (line % length self.old) ≡ without line (filled_in self.old (line % length self.old)) }
        ensures filled_else { (set : ℕ) → set ≢ line % length self.old → filled_in self.new set ≡ filled_in self.old set }
        ensures sets { length self.new ≡ length self.old }
    {
        let set = self.set(line);
        self.slots[set] = None;
    }
}
