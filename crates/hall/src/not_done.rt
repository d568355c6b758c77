// Why a change was not made.
ghost use Rattle.std.specs.Prelude.{◌≡◌};
ghost use Rattle.codes.specs.declared.setup_error.SetupError.TheVariants as setup;
ghost use Rattle.hall.specs.declared.not_done.NotDone.TheVariants.{Setup};

use codes::{Refusal, SetupError};
use std::alloc::AllocError;

#[derive(Clone, Copy, Debug, PartialEq, Eq)]
pub(crate) enum NotDone {
    /// It was refused, or there was no memory for it, which has no refusal number and so ends the
    /// scenario.
    Setup(SetupError),
    /// It came before what it needs.
    Misplaced,
}

impl From<SetupError> for NotDone {
    ghost from_gives = { λ e r. r ≡ Setup e };

    fn from(error: SetupError) -> NotDone {
        NotDone::Setup(error)
    }
}

impl From<Refusal> for NotDone {
    ghost from_gives = { λ e r. r ≡ Setup (setup.Refused e) };

    fn from(refusal: Refusal) -> NotDone {
        NotDone::Setup(SetupError::Refused(refusal))
    }
}

impl From<AllocError> for NotDone {
    ghost from_gives = { λ _ r. r ≡ Setup setup.OutOfMemory };

    fn from(_error: AllocError) -> NotDone {
        NotDone::Setup(SetupError::OutOfMemory)
    }
}
