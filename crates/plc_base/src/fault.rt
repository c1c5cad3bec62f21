//! Why a call that takes memory gave nothing.
ghost use Rattle.std.specs.Prelude.{◌≡◌};

use std::alloc::{AllocError, AllocFailed};
use thiserror::Error;

/// Memory was refused.
#[derive(Clone, Copy, Debug, PartialEq, Eq, Error)]
#[error("out of memory")]
pub struct OutOfMemory;

impl From<AllocError> for OutOfMemory {
    ghost from_gives = { λ _ e. e ≡ e };

    fn from(_: AllocError) -> OutOfMemory {
        OutOfMemory
    }
}

impl<T: Drop> From<AllocFailed<T>> for OutOfMemory {
    ghost from_gives = { λ _ e. e ≡ e };

    fn from(_: AllocFailed<T>) -> OutOfMemory {
        OutOfMemory
    }
}
