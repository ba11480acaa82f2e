//! Why a module is refused.
ghost use Rattle.std.specs.Prelude.{◌≡◌};
ghost use Rattle.xf_verify.specs.declared.fault.VerifyFault.TheVariants.{NoMemory};

use std::alloc::{AllocError, AllocFailed};
use thiserror::Error;
use xf_ir::OpName;

/// Why a module is refused.
#[derive(Clone, Copy, Debug, PartialEq, Eq, Error)]
pub enum VerifyFault {
    /// This operation breaks the rule with that number, of V1 to V16.
    #[error("operation {} breaks rule V{rule}", op.0)]
    Rule { rule: u8, op: OpName },
    /// There was no memory.
    #[error("out of memory")]
    NoMemory,
}

impl From<AllocError> for VerifyFault {
    ghost from_gives = { λ _ fault. fault ≡ NoMemory };

    fn from(_error: AllocError) -> VerifyFault {
        VerifyFault::NoMemory
    }
}

impl<T: Drop> From<AllocFailed<T>> for VerifyFault {
    ghost from_gives = { λ _ fault. fault ≡ NoMemory };

    fn from(_error: AllocFailed<T>) -> VerifyFault {
        VerifyFault::NoMemory
    }
}
