// What any directory is.
ghost use Rattle.std.specs.Prelude.{◌≡◌, ℕ, Bool, Result};
ghost use Rattle.directories.specs.declared.no_smf.NoSmf.{NoSmf};
ghost use Rattle.directories.specs.Choices.{ChosenFor, Named, SameServing};
ghost use Rattle.directories.specs.Meanings.{Lawful};

use crate::no_smf::NoSmf;
use codes::{SliceDnn, SmfId};

/// What tells which SMF serves a slice and a DNN. The crate has two; a host may have others.
pub trait Directory {
    // Whether it is open.
    ghost opened: { Self → Bool };

    // Whether a slice, a DNN number and an SMF ID go together.
    ghost serves: { Self → ℕ → ℕ → ℕ → Bool };

    // Which SMF IDs it may take for a slice and a DNN number at its next choice.
    ghost takes: { Self → ℕ → ℕ → ℕ → Bool };

    // When a directory is what a choice leaves: of the one before, a slice, a DNN number and the
    // answer.
    ghost turned: { Self → ℕ → ℕ → Result ℕ NoSmf → Self → Type 0 };

    /// The ID, 1 to 255, of an SMF that serves the slice and the DNN, or why there is none: the
    /// directory is closed, or open and no SMF serves them. Choosing may move the turn, and never
    /// changes what is open or who serves.
    fn choose(&mut self, wanted: SliceDnn) -> Result<SmfId, NoSmf>
        ensures choice { ChosenFor (opened self.old) (serves self.old) (takes self.old) wanted result }
        ensures named { Named wanted result }
        ensures opening { opened self.new ≡ opened self.old }
        ensures serving { SameServing (serves self.old) (serves self.new) }
        ensures turn { turned self.old wanted.slice wanted.dnn result self.new };

    // What is so of each directory at any time.
    ghost lawful: { (d : Self) → Lawful (serves d) (takes d) };
}
