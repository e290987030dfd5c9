//! What is asked of a run.
ghost use Rattle.std.specs.Prelude.{◌≡◌, ◌≤◌};
ghost use Rattle.kmp_base.specs.Machines.{most_ways};

/// The most cores of a run.
pub const MOST_CORES: u32 = 8;

/// The most cycles of each core.
pub const MOST_BUDGET: u32 = 100_000;

/// The most sets of a cache.
pub const MOST_SETS: u32 = 256;

/// The most ways of a cache.
pub const MOST_WAYS: u32 = 8;

/// How much of the machine is there.
#[derive(Clone, Copy, Debug, PartialEq, Eq)]
pub enum MachineKind {
    /// Unpipelined cores over flat memory.
    Plain,
    /// Pipelined cores over flat memory.
    Pipe,
    /// Pipelined cores over caches and a bus.
    Full,
}

impl MachineKind {
    /// The most ways of a set of a cache: caches are direct-mapped. Where there are none, the number
    /// tells nothing.
    pub fn most_ways(self) -> u32
        ensures most { result ≡ most_ways self }
        ensures few { result ≤ MOST_WAYS }
    {
        match self {
            MachineKind::Plain | MachineKind::Pipe => MOST_WAYS,
            MachineKind::Full => 1,
        }
    }
}

/// Which waiting cache the bus is granted to.
#[derive(Clone, Copy, Debug, PartialEq, Eq)]
pub enum Policy {
    /// The one that has waited longest.
    Fifo,
    /// The one with the lowest number.
    Fixed,
    /// The next number after the last granted one.
    Round,
    /// One drawn by the seed.
    Seeded,
}

/// Whose cycle comes next.
#[derive(Clone, Copy, Debug, PartialEq, Eq)]
pub enum Turns {
    /// Each core in rising order, again and again.
    Round,
    /// A core drawn by the seed.
    Seeded,
    /// Cores on threads of their own.
    Threads,
}

/// What is asked of a run: the machine, its size and its choices.
#[derive(Clone, Copy, Debug, PartialEq, Eq)]
pub struct Setup {
    /// How much of the machine is there.
    pub machine: MachineKind,
    /// From 1 to [`MOST_CORES`].
    pub cores: u32,
    /// The cycles that each core may take, from 1 to [`MOST_BUDGET`].
    pub budget: u32,
    /// Which waiting cache the bus is granted to.
    pub policy: Policy,
    /// Whose cycle comes next.
    pub turns: Turns,
    /// Where seeded choices begin.
    pub seed: u32,
    /// The sets of each cache, a power of two up to [`MOST_SETS`].
    pub sets: u32,
    /// The ways of each set, from 1 to [`MOST_WAYS`].
    pub ways: u32,
}
