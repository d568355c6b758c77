// Rulings.
ghost use Rattle.std.specs.Prelude.{◌≡◌};
ghost use Rattle.verdicts.specs.Rulings.{only};

use crate::outcome::Outcome;
use codes::SmfId;

/// All that the rules say, before any directory is asked.
#[derive(Clone, Copy)]
pub struct Ruling {
    pub outcome: Outcome,
    /// The SMF at which the session is to be released, whatever the outcome.
    pub release: Option<SmfId>,
}

impl Ruling {
    // Nothing is to be released.
    pub(crate) fn only(outcome: Outcome) -> Ruling
        ensures { result ≡ only outcome }
    {
        Ruling {
            outcome,
            release: None,
        }
    }
}
