//! Where texts come from.
ghost use Rattle.std.specs.Prelude.{◌≡◌, ◌+◌, ◌<◌, ◌≤◌, ◌≢◌, ℕ, List, Option, length, vec_len, IfOk, IfSome, IsSome, IsSomeAnd, IsErrOf};
ghost use Rattle.xc_edge.specs.Counts.{Rises};
ghost use Rattle.xc_edge.specs.declared.shelf.Fetch.TheVariants.{NoMemory};

use std::alloc::AllocError;
use thiserror::Error;

/// Why a fetch gave no text.
#[derive(Clone, Copy, Debug, PartialEq, Eq, Error)]
pub enum Fetch {
    /// There is no such file, or reading it failed.
    #[error("the file could not be read")]
    Failed,
    /// The file is longer than the limit.
    #[error("the file is too long")]
    Long,
    /// There was no memory for the text.
    #[error("no memory")]
    NoMemory,
}

impl From<AllocError> for Fetch {
    ghost from_gives = { λ _ fault. fault ≡ NoMemory };

    fn from(_: AllocError) -> Fetch {
        Fetch::NoMemory
    }
}

/// Named texts that can be fetched.
pub trait Shelf {
    /// The bytes that each name stands for, where the shelf tells them.
    ghost files: { Self → Option (List ℕ → Option (List ℕ)) };

    /// How often a fetch of a name failed.
    ghost faults: { Self → List ℕ → ℕ };

    /// How many bytes were read.
    ghost taken: { Self → ℕ };

    /// The bytes of the file `name`, which are at most `limit`. It reads one byte more at most.
    fn fetch(&mut self, name: &str, limit: usize) -> Result<Vec<u8>, Fetch>
        ensures files_stay { files self.new ≡ files self.old }
        ensures whole { IfOk result (λ text. IfSome (files self.old) (λ file_of. file_of name.now ≡ Some text.items)) }
        ensures within { IfOk result (λ text. vec_len text ≤ limit) }

        // Each error has its cause.
        ensures failed { IsErrOf result Fetch.Failed → Rises 1 (faults self.old name.now) (faults self.new name.now) }
        ensures long { IsErrOf result Fetch.Long → Rises (limit + 1) (taken self.old) (taken self.new) }
        ensures long_file { IsErrOf result Fetch.Long → IfSome (files self.old) (λ file_of. IsSomeAnd (file_of name.now) (λ text. limit < length text)) }

        // No count falls, and where files are told only a failed fetch of its name raises a count of faults.
        ensures faults_kept { (other : List ℕ) → faults self.old other ≤ faults self.new other }
        ensures others_kept { IsSome (files self.old) → (other : List ℕ) → other ≢ name.now → faults self.new other ≡ faults self.old other }
        ensures no_fault { IsSome (files self.old) → ¬ IsErrOf result Fetch.Failed → faults self.new name.now ≡ faults self.old name.now }
        ensures taken_kept { taken self.old ≤ taken self.new }
        ensures takes_little { taken self.new ≤ taken self.old + limit + 1 };
}
