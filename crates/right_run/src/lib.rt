//! When what a run leaves is right, by the machine and by the turns that were asked for.
//!
//! `proofs/MachineLaws`: on one machine, part by part.
#![tactic(auto)]

ghost use Rattle.std.specs.Prelude.{◌≡◌, ◌≤◌};
ghost use Rattle.right_run.specs.Cycles.{plain_cycles};

use mips_isa::Next;

/// The cycles that an unpipelined core takes for what it does next, on memory that answers at
/// once: one, and for an access a second one.
pub fn plain_cycles(next: &Next) -> u32
    ensures cycles { result ≡ plain_cycles next.now }
    ensures bound { result ≤ 2 }
{
    match next {
        Next::Asks(_) => 2,
        Next::Goes(_) | Next::Stops(_) => 1,
    }
}
