//! The turn and its passes.
ghost use Rattle.std.specs.Prelude.{◌≡◌, ◌<◌, length};
ghost use Rattle.turn.specs.Numbers.{numbers};
ghost use Rattle.turn.specs.Views.{counted, open_of};
ghost use Rattle.turn.specs.Rule.{own_core, joined_cores, is_some, total};

use crate::Counted;
use crate::lock::Lock;
use crate::steps::Watched;
use crate::views::PassView;
use atomic_table::Seat;
use mem_port::MemoryCore;

impl<M: MemoryCore> Watched for Counted<M> {
    ghost seen = { λ k. counted (M.view k.memory) (numbers M.view k.tally) };
}

/// A memory under a lock that callers for its cores take in turn.
#[derive(Drop)]
pub struct Turn<M: MemoryCore> {
    pub(crate) lock: Lock<Counted<M>>,
}

/// The right to call a turn for one core, and to close it once all others were joined to it. It has no
/// bytes but the core's number.
#[derive(Drop)]
pub struct Pass<M: MemoryCore> {
    pub(crate) core: u32,
    pub(crate) seat: Seat<Counted<M>, PassView<Counted<M>>>,
    ghost empty: { length seat.me.1 ≡ 0 },
    ghost idle: { is_some seat.me.0.taken ≡ 0 },
    ghost some_core: { 0 < length seat.me.0.cores },
    ghost named: { (own_core seat.me.0.cores).core ≡ core },
    ghost joined_rest: { total open_of (joined_cores seat.me.0.cores) ≡ 0 },
}

impl<M: MemoryCore> Pass<M> {
    /// The core for which it may be called.
    pub fn core(&self) -> u32
        ensures core { result ≡ self.now.core }
    {
        self.core
    }
}
