//! A core's side of a memory that other cores' threads call too.
ghost use Rattle.std.specs.Prelude.{◌≡◌, ◌+◌, refl};
ghost use Rattle.std.proofs.Common.{◌∙◌};
ghost use Rattle.turn.specs.Rule.{joined_cores};
ghost use Rattle.turn.specs.Passes.{IsOf, HasMade, all_cores, own, side};
ghost use Rattle.core_threads.specs.Sides.{moved-none, moved-twice};

use access_log::Request;
use core_run::CoreSide;
use mem_port::{MemoryCore, Moved, Port, Withdrawal};
use std::sync::Wait;
use turn::{Pass, Turn};

/// The side of a pass's core. Each call waits for the turn.
#[derive(Drop)]
pub struct TurnSide<'a, R: Wait, M: MemoryCore> {
    pub rt: &'a R,
    pub turn: &'a Turn<M>,
    pub pass: &'a mut Pass<M>,
}

impl<'a, R: Wait, M: MemoryCore> CoreSide for TurnSide<'a, R, M> {
    /// The pass is of the turn, and for this core.
    ghost serves = { λ s core. IsOf s.turn.now s.pass.now × (core ≡ s.pass.now.core) };

    ghost view = { λ s core. side s.turn.now s.pass.now };

    /// The turn, the core of the pass and the passes that were joined to it stay. What calls leave of
    /// other cores is what the turn's rule says of their passes.
    ghost leaves_others = { λ core s t. (t.turn.now ≡ s.turn.now)
        × (t.pass.ghost_name ≡ s.pass.ghost_name)
        × (t.pass.now.core ≡ s.pass.now.core)
        × (joined_cores (all_cores t.pass.now) ≡ joined_cores (all_cores s.pass.now)) };

    ghost makes = { λ call s t. HasMade s.turn.now call s.pass.now t.pass.now
        × (t.turn.now ≡ s.turn.now)
        × (t.pass.ghost_name ≡ s.pass.ghost_name) };

    ghost paid = { λ core steps s t. (own t.pass.now).moved ≡ (own s.pass.now).moved + steps };

    fn ask(&mut self, port: Port, request: Request) {
        self.turn.ask(self.rt, self.pass, port, request);
    }

    fn serve(&mut self, port: Port) {
        self.turn.serve(self.rt, self.pass, port);
    }

    fn step(&mut self, choice: u32) -> Moved {
        self.turn.step(self.rt, self.pass, choice)
    }

    fn take(&mut self, port: Port) -> Option<u32> {
        self.turn.take(self.rt, self.pass, port)
    }

    fn withdraw(&mut self, port: Port) -> Withdrawal {
        self.turn.withdraw(self.rt, self.pass, port)
    }

    ghost stays = { λ core s. (refl, refl, refl, refl) };

    ghost goes_on = { λ core s t u a b. (b.0 ∙ a.0, b.1 ∙ a.1, b.2 ∙ a.2, b.3 ∙ a.3) };

    ghost at_rest = { λ core s. moved-none (own s.pass.now).moved };

    ghost adds_up = { λ core j k s t u left p q. moved-twice (own s.pass.now).moved (own t.pass.now).moved (own u.pass.now).moved j k p q };
}
