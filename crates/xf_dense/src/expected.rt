//! Why the body of a dense constant is not read.
ghost use Rattle.std.specs.Prelude.{◌≡◌};
ghost use Rattle.xf_dense.specs.declared.expected.Stopped.TheVariants.{NoMemory};

use std::alloc::{AllocError, AllocFailed};

/// What was due at the token that fits no body.
#[derive(Clone, Copy, Debug, PartialEq, Eq)]
pub enum Due {
    /// An item: a literal or a list.
    Item,
    /// The end of a body that has as many literals as it may have.
    End,
    /// Anything else.
    Other,
}

/// Why a reading stops.
#[derive(Clone, Copy, Debug, PartialEq, Eq)]
pub enum Stopped {
    /// There was no memory.
    NoMemory,
    /// The token with this number, or the end, does not fit; this was due there.
    At(usize, Due),
}

impl From<AllocError> for Stopped {
    ghost from_gives = { λ _ fault. fault ≡ NoMemory };

    fn from(_error: AllocError) -> Stopped {
        Stopped::NoMemory
    }
}

impl<T: Drop> From<AllocFailed<T>> for Stopped {
    ghost from_gives = { λ _ fault. fault ≡ NoMemory };

    fn from(_error: AllocFailed<T>) -> Stopped {
        Stopped::NoMemory
    }
}
