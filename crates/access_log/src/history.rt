//! The list of what was done.
ghost use Rattle.std.specs.Prelude.{◌≡◌, ℕ, ◌+◌, ◌<◌, ◌≤◌, ◌++◌, ◌∷◌, [], length, slice_get, IfOk};
ghost use Rattle.std.specs.List.{All};
ghost use Rattle.access_log.specs.Indices.{last_below, before, IsOfCore};
ghost use Rattle.access_log.specs.Items.{HasWords};

use crate::{Item, NoMemory};
use std::alloc::Global;
use std::marker::Model;

/// A list of items, the oldest first, with room for so many more. It only grows.
///
/// Each entry has a link to the one before it of its core, so that a core's entries are found
/// without a search.
#[derive(Drop)]
pub struct History {
    items: Vec<Item>,
    /// For each item, the index of its core's entry before it.
    links: Vec<Option<u32>>,
    /// For each core, the index of its last entry.
    last: [Option<u32>; 8],
    spare: u32,
}

impl Model for History {
    ghost use Rattle.std.specs.Prelude.{◌+◌, ◌<◌, ◌≤◌, ◌^◌, vec_len, vec_capacity};
    ghost use Rattle.std.specs.List.{All};
    ghost use Rattle.access_log.specs.Items.{HasWords};
    ghost use Rattle.access_log.specs.HistoryView.{HistoryValue, IsLinked};

    ghost Value = { HistoryValue };

    ghost view = { λ h. record { items = h.items.items; spare = h.spare } };

    ghost invariant = { λ h. IsLinked h.items.items h.links.items h.last
        × (vec_len h.items + h.spare ≤ vec_capacity h.items)
        × (vec_len h.links + h.spare ≤ vec_capacity h.links)
        × (vec_len h.items + h.spare < 2 ^ 32)
        × All HasWords h.items.items };
}

impl History {
    /// An empty list with room for so many items. All its memory is taken here.
    pub fn new(alloc: Global, room: u32) -> Result<History, NoMemory>
        ensures items { IfOk result (λ history. history.items ≡ []) }
        ensures spare { IfOk result (λ history. history.spare ≡ room) }
    {
        let items = Vec::with_capacity(alloc, room as usize)?;
        let links = Vec::with_capacity(alloc, room as usize)?;
        Ok(History {
            items,
            links,
            last: [None; 8],
            spare: room,
        })
    }

    /// Appends an item. It takes no memory.
    pub fn push(&mut self, item: Item)
        requires room { 0 < self.old.spare }
        requires core { IsOfCore item }
        ensures items { self.new.items ≡ self.old.items ++ item ∷ [] }
        ensures spare { self.new.spare + 1 ≡ self.old.spare }
    {
        let index = self.items.len() as u32;
        let link = match item {
            Item::Done(entry) => self.last[entry.core as usize].replace(index),
            Item::Bus(_) => None,
        };
        self.items.push_reserved(item);
        self.links.push_reserved(link);
        self.spare -= 1;
    }

    /// The items, the oldest first.
    pub fn items(&self) -> &[Item]
        ensures items { result.now ≡ self.now.items }
        ensures words { All HasWords result.now }
    {
        &self.items
    }

    /// How many items there are.
    pub fn len(&self) -> u32
        ensures len { result ≡ length self.now.items }
    {
        self.items.len() as u32
    }

    /// The item at an index, counted from 0.
    pub fn get(&self, index: u32) -> Option<Item>
        ensures item { result ≡ slice_get self.now.items index }
    {
        self.items.get(index as usize).copied()
    }

    /// The index of a core's last entry. It takes the same time for a history of any length.
    pub fn last_of(&self, core: u32) -> Option<u32>
        ensures last { result ≡ last_below self.now.items (length self.now.items) core }
    {
        self.last.get(core as usize).copied().flatten()
    }

    /// The index of the entry of the same core before the one at an index; none where no entry
    /// stands there. It takes the same time for a history of any length.
    pub fn before(&self, index: u32) -> Option<u32>
        ensures before { result ≡ before self.now.items index }
    {
        self.links.get(index as usize).copied().flatten()
    }
}
