//! What a program reads files through.
ghost use Rattle.std.specs.Prelude.{◌≡◌, ◌≢◌, ◌≤◌, ◌++◌, ℕ, List, Option, take, OnOk, OnErr, IfSome, IsErrOf};
ghost use Rattle.xf_host.specs.Count.{HasRisen};
ghost use Rattle.xf_host.specs.Reads.{AppendsPrefix, AppendsAtMost};

use std::alloc::AllocError;
use thiserror::Error;

/// Why a read gives no bytes.
#[derive(Debug, Drop, Error)]
pub enum FileFail {
    /// The file is absent, or a read of it failed.
    #[error("the file can't be read")]
    Failed,
    /// Memory was refused.
    #[error("out of memory")]
    NoMemory,
}

impl From<AllocError> for FileFail {
    ghost use Rattle.xf_host.specs.declared.files.FileFail.TheVariants.{NoMemory};

    ghost from_gives = { λ _ e. e ≡ NoMemory };

    fn from(_refused: AllocError) -> FileFail {
        FileFail::NoMemory
    }
}

/// Files by their paths.
pub trait Files {
    /// The bytes of the file at a path, where they are told.
    ghost holds: { Self → List ℕ → Option (List ℕ) };

    /// How often a read of a path failed. It never falls, and stays at 2^64 - 1.
    ghost faults: { Self → List ℕ → ℕ };

    /// Appends the first `max` bytes of the file at `path`, or the whole file if it is shorter.
    ///
    /// After an error `into` holds what it held, followed by a prefix of the file. An absent file
    /// is [`FileFail::Failed`].
    fn read(&mut self, path: &str, max: usize, into: &mut Vec<u8>) -> Result<(), FileFail>
        ensures ok { OnOk result (IfSome (holds self.old path.now) (λ bytes.
            into.new.items ≡ into.old.items ++ take max bytes)) }
        ensures err { OnErr result (IfSome (holds self.old path.now) (λ bytes.
            AppendsPrefix bytes into.old.items into.new.items)) }
        ensures bounded { AppendsAtMost max into.old.items into.new.items }
        ensures told { (q : List ℕ) → holds self.new q ≡ holds self.old q }

        // The counts.
        ensures failed { IsErrOf result FileFail.Failed
            → HasRisen (faults self.old path.now) (faults self.new path.now) }
        ensures memory { IsErrOf result FileFail.NoMemory
            → faults self.new path.now ≡ faults self.old path.now }
        ensures grows { faults self.old path.now ≤ faults self.new path.now }
        ensures others { (q : List ℕ) → q ≢ path.now → faults self.new q ≡ faults self.old q };
}
