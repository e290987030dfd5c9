//! The lines of one set of a cache.
ghost use Rattle.std.specs.Prelude.{◌≡◌, ◌<◌, false, [], length};
ghost use Rattle.moesi_master.specs.Moesi.{is_held};
ghost use Rattle.letters.specs.Fold.{victim_of};
ghost use Rattle.item_check.specs.Held.{letter_in, numbers, with_letter, without, without_that, acted, finished};
ghost use Rattle.item_check.specs.Places.{place_of};

use access_log::Letter;
use arrayvec::ArrayVec;
use moesi_master::letters;
use moesi_slave::tables;
use std::marker::Model;

/// A line that a cache holds.
#[derive(Clone, Copy, Debug, PartialEq, Eq)]
pub struct HeldLine {
    /// Its number: line k has the bytes from 8k on.
    pub line: u32,
    pub letter: Letter,
}

impl Default for HeldLine {
    fn default() -> HeldLine {
        HeldLine {
            line: 0,
            letter: Letter::I,
        }
    }
}

/// The lines of a set, in the order in which they were filled.
#[derive(Drop)]
pub(crate) struct HeldLines {
    lines: ArrayVec<HeldLine, 8>,
}

impl Model for HeldLines {
    ghost use Rattle.std.specs.Prelude.{List};
    ghost use Rattle.item_check.specs.declared.held.HeldLine.{HeldLine};

    ghost Value = { List HeldLine };

    ghost view = { λ set. set.lines.items };
}

impl HeldLines {
    /// No line.
    pub fn new() -> HeldLines
        ensures empty { result ≡ [] }
    {
        HeldLines {
            lines: ArrayVec::new(),
        }
    }

    /// Where a line stands.
    fn place_of(&self, line: u32) -> Option<usize>
        ensures place { result ≡ place_of self.now line }
    {
        self.lines.iter().position(|held| held.line == line)
    }

    /// The letter of a line, I where it isn't held.
    pub fn letter(&self, line: u32) -> Letter
        ensures letter { result ≡ letter_in self.now line }
    {
        match self.place_of(line) {
            Some(place) => self.lines[place].letter,
            None => Letter::I,
        }
    }

    /// The line that makes room for another, where there is room for so many.
    pub fn victim(&self, line: u32, ways: u32) -> Option<u32>
        ensures victim { result ≡ victim_of ways (letter_in self.now line) (numbers self.now) }
    {
        if letters::is_held(self.letter(line)) || self.lines.len() < ways as usize {
            None
        } else {
            self.lines.first().map(|held| held.line)
        }
    }

    /// A line that is held gets another letter.
    pub fn set_letter(&mut self, line: u32, letter: Letter)
        ensures lines { self.new ≡ with_letter self.old line letter }
    {
        if let Some(place) = self.place_of(line) {
            self.lines[place] = HeldLine { line, letter };
        }
    }

    /// A line is dropped, if it is held.
    pub fn drop_line(&mut self, line: u32)
        ensures lines { self.new ≡ without line self.old }
    {
        self.lines.retain(|held| held.line != line);
    }

    /// A line makes room, where there is one that does.
    fn make_room(&mut self, victim: Option<u32>)
        ensures lines { self.new ≡ without_that victim self.old }
    {
        if let Some(victim) = victim {
            self.drop_line(victim);
        }
    }

    /// Another cache's transaction of a line acts on it.
    pub fn act(&mut self, line: u32, im: bool)
        ensures lines { self.new ≡ acted line im self.old }
    {
        if im {
            self.drop_line(line);
        } else {
            let letter = tables::act(self.letter(line), im);
            self.set_letter(line, letter);
        }
    }

    /// The cache's own transaction of a line ends: the line is there with this letter.
    pub fn finish(&mut self, line: u32, victim: Option<u32>, letter: Letter)
        requires room { is_held (letter_in self.old line) ≡ false → length (without_that victim self.old) < 8 }
        ensures lines { self.new ≡ finished line victim letter self.old }
    {
        if letters::is_held(self.letter(line)) {
            self.set_letter(line, letter);
        } else {
            self.make_room(victim);
            self.lines.push(HeldLine { line, letter });
        }
    }
}
