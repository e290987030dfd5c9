//! What a core asks of memory.
ghost use Rattle.std.specs.Prelude.{◌≡◌};
ghost use Rattle.access_log.specs.Requests.{asked, access_of, fetch_of};

use mips_isa::{Access, Kind};

/// An access, or a fetch of a word of code.
#[derive(Clone, Copy, Debug, PartialEq, Eq)]
pub struct Request {
    /// The number of instructions that the core executed before; 0 for a fetch.
    pub nth: u32,
    pub kind: Kind,
    /// In bytes. It is a multiple of the kind's width.
    pub addr: u32,
    /// What a compare and swap has to find to store; 0 for a fetch.
    pub expected: u32,
    /// What a store or a compare and swap stores; 0 for a fetch.
    pub value: u32,
}

impl Request {
    /// The request of a core for an access, when it has executed `nth` instructions.
    #[tactic(auto, unfolding(crate::specs::Requests::asked))]
    pub fn of(nth: u32, access: &Access) -> Request
        ensures request { result ≡ asked nth access.now }
    {
        Request {
            nth,
            kind: access.kind,
            addr: access.addr,
            expected: access.expected,
            value: access.value,
        }
    }

    /// The request for the word of code at a byte address.
    pub fn fetch(addr: u32) -> Request
        ensures request { result ≡ fetch_of addr }
    {
        Request {
            nth: 0,
            kind: Kind::Fetch,
            addr,
            expected: 0,
            value: 0,
        }
    }

    /// The access that it asks for.
    #[tactic(auto, unfolding(crate::specs::Requests::access_of))]
    pub fn access(&self) -> Access
        ensures access { result ≡ access_of self.now }
    {
        Access {
            kind: self.kind,
            addr: self.addr,
            expected: self.expected,
            value: self.value,
        }
    }
}
