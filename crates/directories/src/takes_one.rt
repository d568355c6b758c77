// Directories that take one SMF alone.
ghost use Rattle.std.specs.Prelude.{ℕ, Decides};
ghost use Rattle.directories.specs.Meanings.{Sole};

use crate::directory::Directory;

/// A directory that takes one SMF alone for a slice and a DNN at its next choice, and whose proofs
/// say which.
pub trait TakesOne: Directory {
    // When an SMF ID is the one for a slice and a DNN number.
    ghost means: { Self → ℕ → ℕ → ℕ → Type 0 };

    // It is taken exactly then.
    ghost meaning: { (d : Self) (s n m : ℕ) → Decides (Self.takes d s n m) (means d s n m) };

    // No other is.
    ghost sole: { (d : Self) → Sole (Self.takes d) };
}
