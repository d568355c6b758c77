// Why a scenario ends before its text does.
ghost use Rattle.std.specs.Prelude.{◌≡◌};
ghost use Rattle.hall.specs.declared.play_error.PlayError.TheVariants.{OutOfMemory, Io};

use std::alloc::AllocError;
use std::error::Error;
use std::{fmt, io};

// It is small, as there is a result for each line. `main` makes the `anyhow::Error`, which holds a text.
#[derive(Debug, Drop)]
pub(crate) enum PlayError {
    OutOfMemory(AllocError),
    Io(io::Error),
}

impl fmt::Display for PlayError {
    fn fmt<W: fmt::Write>(&self, f: &mut fmt::Formatter<W>) -> fmt::Result {
        match self {
            PlayError::OutOfMemory(cause) => write!(f, "{cause}"),
            PlayError::Io(cause) => write!(f, "{cause}"),
        }
    }
}

impl Error for PlayError {}

impl From<AllocError> for PlayError {
    ghost from_gives = { λ cause e. e ≡ OutOfMemory cause };

    fn from(cause: AllocError) -> PlayError {
        PlayError::OutOfMemory(cause)
    }
}

impl From<io::Error> for PlayError {
    ghost from_gives = { λ cause e. e ≡ Io cause };

    fn from(cause: io::Error) -> PlayError {
        PlayError::Io(cause)
    }
}
