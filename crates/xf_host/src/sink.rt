//! What a program writes to.
ghost use Rattle.std.specs.Prelude.{◌≡◌, ℕ, List, Option, IsErrOf};

use std::alloc::AllocError;
use thiserror::Error;

/// Why a write is refused.
#[derive(Debug, Drop, Error)]
pub enum SinkFail {
    /// The sink took less than the piece.
    #[error("the write failed")]
    Failed,
    /// Memory was refused.
    #[error("out of memory")]
    NoMemory,
}

impl From<AllocError> for SinkFail {
    ghost use Rattle.xf_host.specs.declared.sink.SinkFail.TheVariants.{NoMemory};

    ghost from_gives = { λ _ e. e ≡ NoMemory };

    fn from(_refused: AllocError) -> SinkFail {
        SinkFail::NoMemory
    }
}

/// Takes bytes in order.
pub trait Sink {
    ghost use Rattle.xf_host.specs.Writes.{WritesText, FailsByCount};

    /// The bytes that were taken, where they are told.
    ghost written: { Self → Option (List ℕ) };

    /// How often a write failed. It never falls, and stays at 2^64 - 1.
    ghost faults: { Self → ℕ };

    /// Appends the piece. After [`SinkFail::Failed`] a prefix of it was appended, and after
    /// [`SinkFail::NoMemory`] nothing.
    fn write(&mut self, piece: &[u8]) -> Result<(), SinkFail>
        ensures text { WritesText result piece.now (written self.old) (written self.new) }
        ensures count { FailsByCount result (faults self.old) (faults self.new) }
        ensures memory { IsErrOf result SinkFail.NoMemory → written self.new ≡ written self.old }
        ensures memory_count { IsErrOf result SinkFail.NoMemory
            → faults self.new ≡ faults self.old };
}
