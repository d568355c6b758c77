// Why a router was not opened.
ghost use Rattle.std.specs.Prelude.{◌≡◌};

use codes::SetupError;
use stores::Store;

/// The store that was handed in comes back with the error, as it was.
#[derive(Drop)]
pub struct Unopened<S: Store> {
    pub error: SetupError,
    pub store: S,
}

impl<S: Store + Drop> From<Unopened<S>> for SetupError {
    ghost from_gives = { λ u e. e ≡ u.error };

    fn from(unopened: Unopened<S>) -> SetupError {
        unopened.error
    }
}
