//! The bus.
ghost use Rattle.std.specs.Prelude.{◌≡◌, ◌&&◌, not, ◌<◌, ◌+◌, ◌^◌};
ghost use Rattle.moesi_master.specs.declared.Phase.TheVariants.{Off};
ghost use Rattle.moesi_master.specs.Moesi.{suffices};
ghost use Rattle.moesi_slave.specs.Slave.{is_latched};
ghost use Rattle.cache_bus.specs.View.{looked};

use access_log::Letter;
use moesi_master::{Phase, letters, phases};
use moesi_slave::{Seen, SlavePhase, tables};

/// The transaction that is on. Where none is, only `phase` means anything.
#[derive(Clone, Copy, Debug, PartialEq, Eq)]
pub struct Bus {
    /// The transition that comes next.
    pub phase: Phase,
    /// The cache whose transaction it is.
    pub master: u32,
    /// The number of the line. A line has 8 bytes.
    pub line: u32,
    /// The intent to modify.
    pub im: bool,
    /// The line that the master drops to make room.
    pub victim: Option<u32>,
    /// Whether its request was withdrawn.
    pub abandoned: bool,
    /// Whether the master needs the words.
    pub supply: bool,
    /// The other caches that hold the line, as far as they have looked: bit k stands for cache k.
    pub ch: u16,
    /// The cache that has to supply the words, where one that has looked does.
    pub di: Option<u32>,
    /// The words that were supplied, the one with the lower address first.
    pub low: u32,
    pub high: u32,
}

impl Bus {
    /// A bus with no transaction on it.
    pub fn free() -> Bus
        ensures off { result.phase ≡ Off }
    {
        Bus {
            phase: Phase::Off,
            master: 0,
            line: 0,
            im: false,
            victim: None,
            abandoned: false,
            supply: false,
            ch: 0,
            di: None,
            low: 0,
            high: 0,
        }
    }
}

/// The number whose one bit stands for a cache.
fn bit(cache: u32) -> u16
    requires below { cache < 16 }
    ensures power { result ≡ 2 ^ cache }
{
    1 << cache
}

/// The bus after a look, where so many caches haven't looked yet.
pub fn looked(bus: Bus, cache: u32, seen: Seen, left: u32) -> Bus
    requires cache { cache < 16 }
    requires ch { bus.ch + 2 ^ cache < 2 ^ 16 }
    ensures looked { result ≡ looked bus cache seen left }
{
    let mut bus = bus;
    if seen.ch {
        bus.ch += bit(cache);
    }
    if seen.di {
        bus.di = Some(cache);
    }
    bus.phase = phases::after(Phase::Look, left, bus.supply);
    bus
}

/// Whether a request is done as it is served, by its copy's letter, its intent to modify, its cache's
/// part in the transaction that is on, and whether that is on the same line.
pub fn serves(letter: Letter, im: bool, slave: SlavePhase, on_line: bool) -> bool
    ensures serves { result ≡ (suffices letter im && not (is_latched slave && on_line)) }
{
    letters::suffices(letter, im) && !(tables::latched(slave) && on_line)
}
