//! How far each cache is in the transaction that is on.
ghost use Rattle.std.specs.Prelude.{◌≡◌, ◌≢◌, ℕ, ◌<◌, ◌≤◌, true, length};
ghost use Rattle.moesi_slave.specs.declared.SlavePhase.TheVariants.{Fresh};
ghost use Rattle.coherence.specs.Bus.{count_others};
ghost use Rattle.cache_bus.specs.View.{slave_in, is_left};

use moesi_slave::{SlavePhase, tables};

/// A cache's part in the transaction that is on.
pub fn slave_at(slaves: &Vec<SlavePhase>, cache: u32) -> SlavePhase
    requires below { cache < length slaves.now.items }
    ensures slave { result ≡ slave_in slaves.now.items cache }
{
    slaves[cache as usize]
}

/// Whether a cache has still to look, or still to act.
fn is_left(looks: bool, slave: SlavePhase) -> bool
    ensures left { result ≡ is_left looks slave }
{
    if looks {
        tables::fresh(slave)
    } else {
        !tables::acted(slave)
    }
}

/// How many caches other than the master have still to look, or still to act.
pub fn count_left(slaves: &Vec<SlavePhase>, master: u32, looks: bool) -> u32
    requires few { length slaves.now.items ≤ 16 }
    ensures count { result ≡ count_others (is_left looks) (slave_in slaves.now.items) master (length slaves.now.items) }
{
    let mut count = 0;
    for cache in 0..slaves.len() as u32 {
        if cache != master && is_left(looks, slaves[cache as usize]) {
            count += 1;
        }
    }
    count
}

/// The cache with this place among them, in rising order.
pub fn next(slaves: &Vec<SlavePhase>, master: u32, looks: bool, place: u32) -> u32
    requires few { length slaves.now.items ≤ 16 }
    requires place { place < count_others (is_left looks) (slave_in slaves.now.items) master (length slaves.now.items) }
    ensures below { result < length slaves.now.items }
    ensures other { result ≢ master }
    ensures left { is_left looks (slave_in slaves.now.items result) ≡ true }
    ensures place { count_others (is_left looks) (slave_in slaves.now.items) master result ≡ place }
{
    let mut count = 0;
    for cache in 0..slaves.len() as u32 {
        if cache != master && is_left(looks, slaves[cache as usize]) {
            if count == place {
                return cache;
            }
            count += 1;
        }
    }
    unreachable!()
}

/// No cache has looked.
pub fn refresh(slaves: &mut Vec<SlavePhase>)
    ensures fresh { (cache : ℕ) → slave_in slaves.new.items cache ≡ Fresh }
    ensures len { length slaves.new.items ≡ length slaves.old.items }
{
    for cache in 0..slaves.len() {
        slaves[cache] = SlavePhase::Fresh;
    }
}
