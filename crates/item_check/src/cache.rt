//! What one cache holds, set by set.
ghost use Rattle.std.specs.Prelude.{◌≡◌, ℕ, ◌<◌, ◌%◌, [], false, length, get_or, IfOk};
ghost use Rattle.moesi_master.specs.Moesi.{is_held};
ghost use Rattle.letters.specs.Fold.{victim_of};
ghost use Rattle.item_check.specs.Held.{letter_in, numbers, with_letter, without_that, acted, finished, set_for, with_set_for};

use crate::NoMemory;
use crate::held::HeldLines;
use access_log::Letter;
use std::alloc::Global;
use std::marker::Model;

/// A line stands in the set with the number that is the rest of its own by the number of sets.
#[derive(Drop)]
pub(crate) struct HeldSets {
    sets: Vec<HeldLines>,
}

impl Model for HeldSets {
    ghost use Rattle.std.specs.Prelude.{List};
    ghost use Rattle.item_check.specs.declared.held.HeldLine.{HeldLine};

    ghost Value = { List (List HeldLine) };

    ghost view = { λ cache. cache.sets.items };
}

impl HeldSets {
    /// So many sets without a line.
    pub fn new(alloc: Global, count: u32) -> Result<HeldSets, NoMemory>
        ensures sets { IfOk result (λ cache. length cache ≡ count) }
        ensures empty { IfOk result (λ cache. (set : ℕ) → get_or cache set [] ≡ []) }
    {
        let mut sets = Vec::with_capacity(alloc, count as usize)?;
        for _ in 0..count {
            sets.push_reserved(HeldLines::new());
        }
        Ok(HeldSets { sets })
    }

    /// The set of a line.
    fn index_of(&self, line: u32) -> usize
        requires some { 0 < length self.now }
        ensures index { result ≡ line % length self.now }
    {
        line as usize % self.sets.len()
    }

    /// The letter of a line, I where it isn't held.
    pub fn letter(&self, line: u32) -> Letter
        requires some { 0 < length self.now }
        ensures letter { result ≡ letter_in (set_for self.now line) line }
    {
        self.sets[self.index_of(line)].letter(line)
    }

    /// The line that makes room for another, where a set has room for so many.
    pub fn victim(&self, line: u32, ways: u32) -> Option<u32>
        requires some { 0 < length self.now }
        ensures victim { result ≡ victim_of ways (letter_in (set_for self.now line) line) (numbers (set_for self.now line)) }
    {
        self.sets[self.index_of(line)].victim(line, ways)
    }

    /// A line that is held gets another letter.
    pub fn set_letter(&mut self, line: u32, letter: Letter)
        requires some { 0 < length self.old }
        ensures sets { self.new ≡ with_set_for self.old line (with_letter (set_for self.old line) line letter) }
    {
        let index = self.index_of(line);
        self.sets[index].set_letter(line, letter);
    }

    /// Another cache's transaction of a line acts on it.
    pub fn act(&mut self, line: u32, im: bool)
        requires some { 0 < length self.old }
        ensures sets { self.new ≡ with_set_for self.old line (acted line im (set_for self.old line)) }
    {
        let index = self.index_of(line);
        self.sets[index].act(line, im);
    }

    /// The cache's own transaction of a line ends: the line is there with this letter.
    pub fn finish(&mut self, line: u32, victim: Option<u32>, letter: Letter)
        requires some { 0 < length self.old }
        requires room { is_held (letter_in (set_for self.old line) line) ≡ false
            → length (without_that victim (set_for self.old line)) < 8 }
        ensures sets { self.new ≡ with_set_for self.old line (finished line victim letter (set_for self.old line)) }
    {
        let index = self.index_of(line);
        self.sets[index].finish(line, victim, letter);
    }
}
