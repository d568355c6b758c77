// Why something was not made.
ghost use Rattle.std.specs.Prelude.{◌≡◌};
ghost use Rattle.codes.specs.declared.setup_error.SetupError.TheVariants.{Refused, OutOfMemory};

use crate::refusal::Refusal;
use std::alloc::{AllocError, AllocFailed};

/// Why something was not made: it was refused, or there is no memory for it.
#[derive(Clone, Copy, Debug, PartialEq, Eq)]
pub enum SetupError {
    /// What was asked for cannot be made.
    Refused(Refusal),
    /// There is no memory for what was to be made. It is no refusal, and has no number.
    OutOfMemory,
}

impl From<Refusal> for SetupError {
    ghost from_gives = { λ e r. r ≡ Refused e };

    fn from(refusal: Refusal) -> SetupError {
        SetupError::Refused(refusal)
    }
}

impl From<AllocError> for SetupError {
    ghost from_gives = { λ _ r. r ≡ OutOfMemory };

    fn from(_error: AllocError) -> SetupError {
        SetupError::OutOfMemory
    }
}

/// What could not be stored is dropped.
impl<T: Drop> From<AllocFailed<T>> for SetupError {
    ghost from_gives = { λ _ r. r ≡ OutOfMemory };

    fn from(failed: AllocFailed<T>) -> SetupError {
        SetupError::from(AllocError::from(failed))
    }
}
