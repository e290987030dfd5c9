//! A source and a sink of bytes, by what is left and what is held, and by their faults.
ghost use Rattle.std.specs.Prelude.{◌≡◌, ℕ, ◌<◌, ◌≤◌, ◌↔◌, List, [], Option, length, take, IfSome};
ghost use Rattle.kmp_base.specs.Streams.{IfGot, OnReadFailed, IfTook, OnWriteFailed, Rose, Took, Appended};

/// What a call of [`Source::read`] did.
#[derive(Clone, Copy)]
pub enum Read {
    /// So many bytes were given. At 0 the input is at its end.
    Got(usize),
    /// The call failed, and no byte was taken from the source.
    Failed,
}

/// What a call of [`Sink::write`] did.
#[derive(Clone, Copy)]
pub enum Wrote {
    /// So many bytes were taken, at least one.
    Took(usize),
    /// The call failed. A sink that tells its content holds what it held.
    Failed,
}

/// Where bytes come from. It counts its faults, so a fault is never taken for the end of the input.
pub trait Source {
    /// The bytes that are left, where the source tells.
    ghost left: { Self → Option (List ℕ) };

    /// How often a read has failed. The count may stop at 2^64 - 1, and never falls.
    ghost faults: { Self → ℕ };

    /// Gives the next bytes, into the front of `buf`. It gives none exactly at the end.
    fn read(&mut self, buf: &mut [u8]) -> Read
        requires { 0 < length buf.old }
        ensures bound { IfGot result (λ n. n ≤ length buf.new) }
        ensures next { IfGot result (λ n. Took (left self.old) (left self.new) (take n buf.new)) }
        ensures at_end { IfGot result (λ n.
            IfSome (left self.old) (λ bytes. (n ≡ 0) ↔ (bytes ≡ []))) }
        ensures no_fault { IfGot result (λ _. faults self.new ≡ faults self.old) }
        ensures same { OnReadFailed result (left self.new ≡ left self.old) }
        ensures cause { OnReadFailed result (Rose (faults self.old) (faults self.new)) }
        ensures later { faults self.old ≤ faults self.new };
}

/// Where bytes go to. It counts its faults; one that takes no byte of a piece has failed.
pub trait Sink {
    /// The bytes that are held, where the sink tells.
    ghost held: { Self → Option (List ℕ) };

    /// How often a write has failed. The count may stop at 2^64 - 1, and never falls.
    ghost faults: { Self → ℕ };

    /// Appends the first bytes of a piece, at least one.
    fn write(&mut self, piece: &[u8]) -> Wrote
        requires { 0 < length piece.now }
        ensures least { IfTook result (λ n. 0 < n) }
        ensures bound { IfTook result (λ n. n ≤ length piece.now) }
        ensures appended { IfTook result (λ n.
            Appended (held self.old) (held self.new) (take n piece.now)) }
        ensures no_fault { IfTook result (λ _. faults self.new ≡ faults self.old) }
        ensures same { OnWriteFailed result (held self.new ≡ held self.old) }
        ensures cause { OnWriteFailed result (Rose (faults self.old) (faults self.new)) }
        ensures later { faults self.old ≤ faults self.new };
}
