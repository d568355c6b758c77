// What a command changes in the hall.
ghost use Rattle.std.specs.Prelude.{◌≡◌};
ghost use Rattle.hall.specs.Asked.{wanted};
ghost use Rattle.hall.specs.Outcomes.{verb_of};

use crate::directory_kind::DirectoryKind;
use crate::directory_state::DirectoryState;
use crate::verb::Verb;
use control::ControlNumbers;
use directories::ServiceLine;

// Both are kinds of stores, so this is no `Option` of rows.
#[derive(Clone, Copy)]
pub(crate) enum StoreKind {
    /// So many rows.
    Flat(usize),
    Grid,
}

#[derive(Drop)]
pub(crate) enum Change {
    /// A book of these names.
    Book(Vec<Vec<u8>>),
    Store(StoreKind),
    /// A new directory.
    Directory(DirectoryKind),
    /// One more line of the directory.
    Serve(ServiceLine),
    /// The turning directory is opened, or closed.
    Mark(DirectoryState),
    /// A new control table of so many rows.
    Control(usize),
    /// A control line with its back-off octet.
    Set(ControlNumbers, u8),
    Clear(ControlNumbers),
}

impl Change {
    // The verb of the command that asks for it.
    pub(crate) fn verb(&self) -> Verb
        ensures { result ≡ verb_of (wanted self.now) }
    {
        match self {
            Change::Book(_) => Verb::Book,
            Change::Store(_) => Verb::Store,
            Change::Directory(_) => Verb::Directory,
            Change::Serve(_) => Verb::Serve,
            Change::Mark(_) => Verb::Mark,
            Change::Control(_) => Verb::Control,
            Change::Set(_, _) => Verb::Set,
            Change::Clear(_) => Verb::Clear,
        }
    }
}
