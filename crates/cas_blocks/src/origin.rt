//! Where the blocks of a table's file come from.

ghost use Rattle.std.specs.Prelude.{◌≡◌, ◌+◌, ◌≤◌, ℕ, List, Option, Some, vec_len, MatchOption, IfOk, IfSome, IsErrOf};
ghost use Rattle.cas_disk.specs.Counts.{Counted};
ghost use Rattle.cas_blocks.specs.Origins.{IsBlockAt, NoBlockAt};

use crate::file::TableFile;
use crate::steps::read_body;
use cas_disk::{FolderFault, Sealed};

/// A way in which the blocks of a table's file are come by. It says nothing of which blocks are asked for.
pub trait Origin<F: Sealed> {
    /// What is carried along from block to block. It counts the faults.
    type State;

    /// How many faults are counted.
    ghost faults: { Self.State → ℕ };

    /// What is carried along speaks of the file of these bytes, where it tells them, whose partitions end there.
    ghost fits: { Option (List ℕ) → ℕ → Self.State → Type 0 };

    /// Blocks that are asked for one after another lead from the one to the other.
    ghost leads: { Self.State → Self.State → Type 0 };

    /// The bytes of the block at a place, behind those of their length; none where they don't stand
    /// before the end.
    fn body(
        file: &TableFile<'_, F>,
        place: u64,
        state: &mut Self::State,
    ) -> Result<Option<Vec<u8>>, FolderFault>
        requires fits { fits (F.contents file.now.sealed.now) file.now.end state.old }
        ensures told { IfOk result (λ v. (b : List ℕ) → F.contents file.now.sealed.now ≡ Some b
            → MatchOption v (NoBlockAt b file.now.end place) (λ body. IsBlockAt b file.now.end place body.items)) }
        ensures within { IfOk result (λ v. IfSome v (λ body. place + 4 + vec_len body ≤ file.now.end)) }
        ensures count { Counted (faults state.old) (faults state.new) (IsErrOf result FolderFault.Failed) }
        ensures fits { fits (F.contents file.now.sealed.now) file.now.end state.new }
        ensures leads { leads state.old state.new };

    /// Asking for no block leads nowhere else.
    ghost stays: { (s : Self.State) → leads s s };

    /// One way behind another is a way.
    ghost goes_on: { (s t u : Self.State) → leads s t → leads t u → leads s u };
}

/// Each block is read from the file, whenever it is asked for; the tally is carried along.
pub struct FromFile;

impl<F: Sealed> Origin<F> for FromFile {
    type State = F::Tally;

    ghost faults = { λ tally. F.Tally.number tally };

    ghost fits = { λ _ _ _. Unit {0} };

    ghost leads = { λ _ _. Unit {0} };

    fn body(
        file: &TableFile<'_, F>,
        place: u64,
        tally: &mut F::Tally,
    ) -> Result<Option<Vec<u8>>, FolderFault> {
        read_body(file, place, tally)
    }

    ghost stays = { λ _. tt };

    ghost goes_on = { λ _ _ _ _ _. tt };
}
