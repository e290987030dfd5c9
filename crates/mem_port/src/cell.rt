//! The ports of a memory in which no request waits, and what a request does there.
ghost use Rattle.std.specs.Prelude.{◌≡◌, ◌<◌, ◌≤◌, ◌+◌, ◌*◌, ◌++◌, length};
ghost use Rattle.image_file.specs.Value.{memory_bytes};
ghost use Rattle.access_log.specs.Items.{after_items};
ghost use Rattle.mem_port.specs.Ports.{core_of, MayAsk, items_of};
ghost use Rattle.mem_port.specs.Flat.{index_of, IsFound};

use crate::{Port, PortState};
use access_log::{History, Item, Request, due, store};
use image_file::Image;

/// A port, and how many requests may still be asked there.
#[derive(Clone, Copy)]
pub struct Cell {
    pub state: PortState,
    pub asks: u32,
}

/// The index of a port's cell: core c has the indices 2c, for fetches, and 2c + 1.
pub fn cell_index(port: Port) -> usize
    ensures index { result ≡ index_of port }
{
    match port {
        Port::Fetch(core) => 2 * core as usize,
        Port::Access(core) => 2 * core as usize + 1,
    }
}

/// Does a request, an access with its entry. It gives the word that was there.
#[tactic(auto, unfolding(access_log::specs::Memory::due, access_log::specs::Requests::entry_of, access_log::specs::Requests::access_of, access_log::specs::Requests::old_at))]
pub fn answer(
    image: &Image,
    words: &mut [u32],
    history: &mut History,
    port: Port,
    request: &Request,
) -> u32
    requires size { 4 * length words.old ≡ memory_bytes image.now }
    requires room { 0 < history.old.spare }
    requires core { core_of port < 8 }
    requires proper { MayAsk image.now port request.now }
    ensures word { IsFound image.now words.old port request.now result }
    ensures words { words.new ≡ after_items words.old (items_of port request.now result) }
    ensures items { history.new.items ≡ history.old.items ++ items_of port request.now result }
    ensures spare { history.old.spare ≤ history.new.spare + 1 }
{
    match port {
        Port::Fetch(_) => image.code[(request.addr / 4) as usize],
        Port::Access(core) => {
            let entry = due(words, core, request.nth, &request.access());
            store(words, &entry);
            history.push(Item::Done(entry));
            entry.old
        }
    }
}
