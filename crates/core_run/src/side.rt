//! One core's side of a memory.
ghost use Rattle.std.specs.Prelude.{◌≡◌, ◌≤◌, ◌<◌, ◌+◌, ℕ};
ghost use Rattle.std.proofs.Common.{refl, ◌∙◌};
ghost use Rattle.access_log.specs.declared.request.Request.{Request};
ghost use Rattle.mem_port.specs.declared.port.PortState.TheVariants.{Free, Asked};
ghost use Rattle.mem_port.specs.Ports.{core_of, MayAsk};
ghost use Rattle.mem_port.specs.Calls.{Call, Ask, Serve, Step, Take, Withdraw};
ghost use Rattle.mem_port.specs.Side.{SideView, Served, port_phase, Holds, SideAsks, SideServes, SideSteps, SideTakes, SideWithdraws, LeavesOthers, Paid, steps_in, ServesCore, side_of};
ghost use Rattle.mem_port.proofs.SideLaws.{stays-view, goes_on-view, leaves-paid, paid-twice};

use access_log::Request;
use mem_port::{MemoryCore, Moved, Port, Withdrawal};

/// A memory as it serves the calls of single cores, whether the caller has it for itself or shares
/// it with others.
pub trait CoreSide {
    /// It is in order, and may be called for a core.
    ghost serves: { Self → ℕ → Type 0 };

    /// What it means to that core.
    ghost view: { Self → ℕ → SideView };

    /// What calls for a core leave of all others.
    ghost leaves_others: { ℕ → Self → Self → Type 0 };

    /// That a call was made, with what it was given and what it answered, and led from one state to
    /// another.
    ghost makes: { Call → Self → Self → Type 0 };

    /// That so many steps that moved something were made for a core.
    ghost paid: { ℕ → ℕ → Self → Self → Type 0 };

    /// Puts a request on a free port.
    fn ask(&mut self, port: Port, request: Request)
        requires serves { serves self.old (core_of port) }
        requires free { (view self.old (core_of port)).port port ≡ Free }
        requires left { 1 ≤ (view self.old (core_of port)).asks_left port }
        requires proper { MayAsk (view self.old (core_of port)).image port request }
        ensures serves { serves self.new (core_of port) }
        ensures made { makes (Ask port request) self.old self.new }
        ensures asks { SideAsks port request (view self.old (core_of port)) (view self.new (core_of port)) }
        ensures others { leaves_others (core_of port) self.old self.new }
        ensures paid { paid (core_of port) 0 self.old self.new };

    /// Begins to do the request that was asked on a port.
    fn serve(&mut self, port: Port)
        requires serves { serves self.old (core_of port) }
        requires asked { (r : Request) × ((view self.old (core_of port)).port port ≡ Asked r) }
        ensures serves { serves self.new (core_of port) }
        ensures made { makes (Serve port) self.old self.new }
        ensures served { (r : Request) → (view self.old (core_of port)).port port ≡ Asked r → SideServes port r (view self.old (core_of port)) (view self.new (core_of port)) }
        ensures others { leaves_others (core_of port) self.old self.new }
        ensures paid { paid (core_of port) 0 self.old self.new };

    /// Moves something on, if there is anything.
    fn step(&mut self, choice: u32) -> Moved
        requires serves { (core : ℕ) × serves self.old core }
        ensures serves { (core : ℕ) → serves self.old core → serves self.new core }
        ensures made { makes (Step choice result) self.old self.new }
        ensures steps { (core : ℕ) → serves self.old core → SideSteps result core (view self.old core) (view self.new core) }
        ensures others { (core : ℕ) → serves self.old core → leaves_others core self.old self.new }
        ensures paid { (core : ℕ) → serves self.old core → paid core (steps_in result) self.old self.new };

    /// Takes the answer to the request that was served on a port, if it is there.
    fn take(&mut self, port: Port) -> Option<u32>
        requires serves { serves self.old (core_of port) }
        requires served { (r : Request) × (port_phase ((view self.old (core_of port)).port port) ≡ Served r) }
        ensures serves { serves self.new (core_of port) }
        ensures made { makes (Take port result) self.old self.new }
        ensures takes { (r : Request) → port_phase ((view self.old (core_of port)).port port) ≡ Served r → SideTakes result port r (view self.old (core_of port)) (view self.new (core_of port)) }
        ensures others { leaves_others (core_of port) self.old self.new }
        ensures paid { paid (core_of port) 0 self.old self.new };

    /// Closes a port with its request.
    fn withdraw(&mut self, port: Port) -> Withdrawal
        requires serves { serves self.old (core_of port) }
        requires opened { (r : Request) × Holds (port_phase ((view self.old (core_of port)).port port)) r }
        ensures serves { serves self.new (core_of port) }
        ensures made { makes (Withdraw port result) self.old self.new }
        ensures withdraws { (r : Request) → Holds (port_phase ((view self.old (core_of port)).port port)) r → SideWithdraws result port r (view self.old (core_of port)) (view self.new (core_of port)) }
        ensures others { leaves_others (core_of port) self.old self.new }
        ensures paid { paid (core_of port) 0 self.old self.new };

    /// No call leaves all others as they are.
    ghost stays: { (core : ℕ) (s : Self) → leaves_others core s s };

    /// So do two calls, one after the other.
    ghost goes_on: { (core : ℕ) (s t u : Self) → leaves_others core s t → leaves_others core t u → leaves_others core s u };

    /// Where no call is made, no step is.
    ghost at_rest: { (core : ℕ) (s : Self) → paid core 0 s s };

    /// Their steps add up.
    ghost adds_up: { (core j k : ℕ) (s t u : Self) → leaves_others core s t → paid core j s t → paid core k t u → paid core (j + k) s u };
}

impl<M: MemoryCore> CoreSide for &mut M {
    ghost serves = { λ s core. ServesCore (M.view s.now) core };

    ghost view = { λ s core. side_of (M.view s.now) core };

    ghost leaves_others = { λ core s t. LeavesOthers core (M.view s.now) (M.view t.now) × (t.ghost_name ≡ s.ghost_name) };

    ghost makes = { λ call s t. M.makes call s.now t.now × (t.ghost_name ≡ s.ghost_name) };

    ghost paid = { λ core steps s t. Paid core steps (M.view s.now) (M.view t.now) };

    fn ask(&mut self, port: Port, request: Request) {
        (**self).ask(port, request)
    }

    fn serve(&mut self, port: Port) {
        (**self).serve(port)
    }

    fn step(&mut self, choice: u32) -> Moved {
        (**self).step(choice)
    }

    fn take(&mut self, port: Port) -> Option<u32> {
        (**self).take(port)
    }

    fn withdraw(&mut self, port: Port) -> Withdrawal {
        (**self).withdraw(port)
    }

    ghost stays = { λ core s. (stays-view core (M.view s.now), refl) };

    ghost goes_on = { λ core s t u h k. (goes_on-view core (M.view s.now) (M.view t.now) (M.view u.now) h.0 k.0, k.1 ∙ h.1) };

    ghost at_rest = { λ core s. leaves-paid core (M.view s.now) (M.view s.now) (stays-view core (M.view s.now)) };

    ghost adds_up = { λ core j k s t u h p q. paid-twice core j k (M.view s.now) (M.view t.now) (M.view u.now) p q h.0.kept };
}
