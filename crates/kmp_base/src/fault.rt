//! Why a value was not read.
ghost use Rattle.std.specs.Prelude.{◌≡◌};
ghost use Rattle.kmp_base.specs.declared.fault.Fault.TheVariants.{Memory};
ghost use Rattle.kmp_base.specs.declared.fault.FaultAt.TheVariants as located;

use std::alloc::{AllocError, AllocFailed};
use std::fmt::Display;
use thiserror::Error;

/// Why a value was not read.
#[derive(Clone, Copy)]
pub enum Fault<E> {
    /// No memory is left.
    Memory,
    /// What is wrong with what is read.
    Cause(E),
}

impl<E> From<AllocError> for Fault<E> {
    ghost from_gives = { λ _ e. e ≡ Memory };

    fn from(_error: AllocError) -> Fault<E> {
        Fault::Memory
    }
}

impl<E, T: Drop> From<AllocFailed<T>> for Fault<E> {
    ghost from_gives = { λ _ e. e ≡ Memory };

    fn from(_error: AllocFailed<T>) -> Fault<E> {
        Fault::Memory
    }
}

/// Why a whole text was not read, and where it is wrong first.
#[derive(Clone, Copy, Debug, Error)]
#[error_bound(C: Display)]
pub enum FaultAt<C> {
    #[error("no memory is left")]
    Memory,
    /// The cause, and the number of the line or of the byte, as the type of the cause says.
    #[error("at {1}: {0}")]
    At(C, u32),
}

impl<C> From<AllocError> for FaultAt<C> {
    ghost from_gives = { λ _ e. e ≡ located.Memory };

    fn from(_error: AllocError) -> FaultAt<C> {
        FaultAt::Memory
    }
}

impl<C, T: Drop> From<AllocFailed<T>> for FaultAt<C> {
    ghost from_gives = { λ _ e. e ≡ located.Memory };

    fn from(_error: AllocFailed<T>) -> FaultAt<C> {
        FaultAt::Memory
    }
}
