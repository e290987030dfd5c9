//! What a history makes of the letters, item by item.
ghost use Rattle.std.specs.Prelude.{◌≡◌, ◌≤◌, ◌<◌, ◌+◌, ◌*◌, ◌%◌, true, None, Some, IfOk, IfErr, OnOk, OnErr, length, get_or, ◌∷◌, []};
ghost use Rattle.access_log.specs.declared.Item.TheVariants.{Done, Bus};
ghost use Rattle.moesi_master.specs.Moesi.{is_hit};
ghost use Rattle.letters.specs.Caches.{moesi, all_with};
ghost use Rattle.letters.specs.Fold.{no_letters, cache_of, line_of, after_entry, after_transaction, letters_after};
ghost use Rattle.letters.specs.Fold.{holders, supplier_of, victim_of, IsAllowed};
ghost use Rattle.item_check.specs.Held.{caches_of, letters_of, IsKept};
ghost use Rattle.item_check.specs.Illegal.{first_difference, transaction_dues, entry_due, illegal_in, IsOfCores, found_optional};
ghost use Rattle.item_check.specs.Illegal.{im_due, line_due, held_due, ch_due, di_due, victim_due, letter_due};

use crate::cache::HeldSets;
use crate::{Illegal, NoMemory, caches};
use access_log::{Entry, Field, Found, Item, Letter, Transaction};
use moesi_master::letters;
use std::alloc::Global;
use std::marker::Model;

/// How the caches of some cores hold lines, by the MOESI protocol: core c has its instructions in
/// cache 2c and its data in cache 2c + 1. Line k has the bytes from 8k on, and stands in the set with
/// the number that is the rest of k by the number of sets.
#[derive(Drop)]
pub struct Letters {
    sets: u32,
    ways: u32,
    cores: u32,
    code_lines: u32,
    caches: Vec<HeldSets>,
}

impl Model for Letters {
    ghost use Rattle.item_check.specs.Held.{HeldLetters, AreHeld};

    ghost Value = { HeldLetters };

    ghost view = { λ l. record { sets = l.sets; ways = l.ways; cores = l.cores; code_lines = l.code_lines; held = l.caches.items } };

    ghost invariant = { λ l. AreHeld (record {
      sets = l.sets;
      ways = l.ways;
      cores = l.cores;
      code_lines = l.code_lines;
      held = l.caches.items;
    }) };
}

/// The first of the fields im, line and held that isn't as is due, where the master has such a letter.
fn front_illegal(bus: &Transaction, code_lines: u32, held: Letter) -> Option<Illegal>
    ensures first { result ≡ first_difference (im_due bus.now ∷ line_due code_lines bus.now ∷ held_due held bus.now ∷ []) }
{
    let reads_code = bus.master % 2 == 0;
    if reads_code && bus.im {
        Some(Illegal {
            field: Field::Im,
            found: Found::Number(0),
        })
    } else if reads_code && bus.line >= code_lines {
        Some(Illegal {
            field: Field::Line,
            found: Found::Nothing,
        })
    } else if letters::suffices(held, bus.im) {
        Some(Illegal {
            field: Field::Held,
            found: Found::Letter(held),
        })
    } else {
        None
    }
}

/// A number, or nothing.
fn found_optional(number: Option<u32>) -> Found
    ensures found { result ≡ found_optional number }
{
    match number {
        None => Found::Nothing,
        Some(number) => Found::Number(u64::from(number)),
    }
}

/// The first of the fields ch, di, victim and letter that isn't as is due.
fn back_illegal(
    bus: &Transaction,
    ch: u16,
    di: Option<u32>,
    victim: Option<u32>,
    letter: Letter,
) -> Option<Illegal>
    ensures first { result ≡ first_difference (ch_due ch bus.now ∷ di_due di bus.now ∷ victim_due victim bus.now ∷ letter_due letter bus.now ∷ []) }
{
    if bus.ch != ch {
        Some(Illegal {
            field: Field::Ch,
            found: Found::Set(ch),
        })
    } else if bus.di != di {
        Some(Illegal {
            field: Field::Di,
            found: found_optional(di),
        })
    } else if bus.victim != victim {
        Some(Illegal {
            field: Field::Victim,
            found: found_optional(victim),
        })
    } else if bus.letter != letter {
        Some(Illegal {
            field: Field::Letter,
            found: Found::Letter(letter),
        })
    } else {
        None
    }
}

/// The data cache of the core of an access.
fn data_cache(entry: &Entry) -> usize
    ensures cache { result ≡ cache_of entry.now }
{
    2 * entry.core as usize + 1
}

impl Letters {
    /// The letters at the start, where no cache holds a line: for so many sets, so many ways in each,
    /// so many cores, and so many lines of code. All their memory is taken here; the error says that
    /// there wasn't enough.
    pub fn new(
        alloc: Global,
        sets: u32,
        ways: u32,
        cores: u32,
        code_lines: u32,
    ) -> Result<Letters, NoMemory>
        requires some_sets { 1 ≤ sets }
        requires sets { sets ≤ 256 }
        requires some_ways { 1 ≤ ways }
        requires ways { ways ≤ 8 }
        requires some_cores { 1 ≤ cores }
        requires cores { cores ≤ 8 }
        ensures caches { IfOk result (λ l. caches_of l ≡ all_with moesi sets ways) }
        ensures cores { IfOk result (λ l. l.cores ≡ cores) }
        ensures code_lines { IfOk result (λ l. l.code_lines ≡ code_lines) }
        ensures letters { IfOk result (λ l. letters_of l ≡ no_letters) }
    {
        let caches = caches::empty(alloc, 2 * cores, sets)?;
        Ok(Letters {
            sets,
            ways,
            cores,
            code_lines,
            caches,
        })
    }

    /// The letter of a line in a cache.
    pub fn letter(&self, cache: u32, line: u32) -> Letter
        requires cache { cache < 2 * self.now.cores }
        ensures letter { result ≡ (letters_of self.now).letter cache line }
    {
        caches::letter_at(&self.caches, cache as usize, line)
    }

    /// The letter of the line of an access in the data cache of its core.
    fn data_letter(&self, entry: &Entry) -> Letter
        requires core { entry.now.core < self.now.cores }
        ensures letter { result ≡ (letters_of self.now).letter (cache_of entry.now) (line_of entry.now) }
    {
        caches::letter_at(&self.caches, data_cache(entry), entry.addr / 8)
    }

    /// What is broken by a transaction, if anything is.
    fn illegal_transaction(&self, bus: &Transaction) -> Option<Illegal>
        requires master { bus.now.master < 2 * self.now.cores }
        ensures illegal { result ≡ illegal_in (caches_of self.now) self.now.cores self.now.code_lines (letters_of self.now) (Bus bus.now) }
    {
        let (master, line) = (bus.master, bus.line);
        let held = self.letter(master, line);
        if let Some(illegal) = front_illegal(bus, self.code_lines, held) {
            return Some(illegal);
        }
        let ch = caches::holders(&self.caches, master, line);
        let di = caches::supplier(&self.caches, master, line);
        let victim = caches::victim_at(&self.caches, master as usize, line, self.ways);
        back_illegal(bus, ch, di, victim, letters::after_finish(bus.im, bus.ch))
    }

    /// What is broken by an item, if anything is.
    fn illegal(&self, item: &Item) -> Option<Illegal>
        requires cores { IsOfCores self.now.cores item.now }
        ensures illegal { result ≡ illegal_in (caches_of self.now) self.now.cores self.now.code_lines (letters_of self.now) item.now }
    {
        match item {
            Item::Done(entry) => {
                let letter = self.data_letter(entry);
                if letters::hit(letter, entry.kind) {
                    None
                } else {
                    Some(Illegal {
                        field: Field::Letter,
                        found: Found::Letter(letter),
                    })
                }
            }
            Item::Bus(bus) => self.illegal_transaction(bus),
        }
    }

    /// An access that is a hit.
    fn enter(&mut self, entry: &Entry)
        requires core { entry.now.core < self.old.cores }
        requires hit { is_hit ((letters_of self.old).letter (cache_of entry.now) (line_of entry.now)) entry.now.kind ≡ true }
        ensures kept { IsKept self.old self.new }
        ensures letters { letters_of self.new ≡ after_entry (letters_of self.old) entry.now }
    {
        let letter = letters::after_hit(self.data_letter(entry), entry.new.is_some());
        self.caches[data_cache(entry)].set_letter(entry.addr / 8, letter);
    }

    /// A transaction that is allowed.
    fn transact(&mut self, bus: &Transaction)
        requires allowed { IsAllowed (caches_of self.old) self.old.cores self.old.code_lines (letters_of self.old) bus.now }
        ensures kept { IsKept self.old self.new }
        ensures letters { letters_of self.new ≡ after_transaction (caches_of self.old) (letters_of self.old) bus.now }
    {
        caches::act(&mut self.caches, bus.master, bus.line, bus.im);
        self.caches[bus.master as usize].finish(bus.line, bus.victim, bus.letter);
    }

    /// Does one item, where the letters allow it. Else the error tells the first field of it that isn't
    /// as is due, and nothing changes: of an access the letter of its core's data cache, where that is
    /// no hit; of a transaction im (an instruction cache doesn't modify), line (it reads lines of code),
    /// held (the master's letter, where it needs no transaction), ch, di, victim and letter. No memory
    /// is taken.
    pub fn next(&mut self, item: &Item) -> Result<(), Illegal>
        requires cores { IsOfCores self.old.cores item.now }
        ensures kept { IsKept self.old self.new }
        ensures legal { OnOk result (illegal_in (caches_of self.old) self.old.cores self.old.code_lines (letters_of self.old) item.now ≡ None) }
        ensures letters { OnOk result (letters_of self.new ≡ letters_after (caches_of self.old) (letters_of self.old) (item.now ∷ [])) }
        ensures illegal { IfErr result (λ illegal. illegal_in (caches_of self.old) self.old.cores self.old.code_lines (letters_of self.old) item.now ≡ Some illegal) }
        ensures unchanged { OnErr result (self.new ≡ self.old) }
    {
        if let Some(illegal) = self.illegal(item) {
            return Err(illegal);
        }
        match item {
            Item::Done(entry) => self.enter(entry),
            Item::Bus(bus) => self.transact(bus),
        }
        Ok(())
    }
}
