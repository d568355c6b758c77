// Whether a turning directory is open.
ghost use Rattle.std.specs.Prelude.{◌≡◌};
ghost use Rattle.hall.specs.Kinds.{state_word, is_open};

use crate::word::Worded;

#[derive(Clone, Copy, PartialEq, Eq)]
pub(crate) enum DirectoryState {
    Open,
    Closed,
}

impl DirectoryState {
    pub(crate) const ALL: [DirectoryState; 2] = [DirectoryState::Open, DirectoryState::Closed];

    pub(crate) fn is_open(self) -> bool
        ensures { result ≡ is_open self }
    {
        self == DirectoryState::Open
    }
}

impl Worded for DirectoryState {
    ghost word = { state_word };

    fn word(self) -> &'static str {
        match self {
            DirectoryState::Open => "open",
            DirectoryState::Closed => "closed",
        }
    }
}
