// Decisions.
ghost use Rattle.std.specs.Prelude.{◌≡◌};
ghost use Rattle.verdicts.specs.Verdicts.{smf_of};

use codes::{Cause, SmfId};

/// What becomes of a payload.
#[derive(Clone, Copy, Debug, PartialEq, Eq)]
pub enum Decision {
    /// It goes to the SMF of the context that stands.
    Forward(SmfId),
    /// It goes to this SMF, and a context is put.
    Establish { smf: SmfId, emergency: bool },
    /// It goes back to the UE, with this 5GMM cause (3GPP TS 24.501, 9.11.3.2).
    Return(Cause),
}

impl Decision {
    /// The SMF that it goes to, where it goes to one.
    pub fn smf(self) -> Option<SmfId>
        ensures { result ≡ smf_of self }
    {
        match self {
            Decision::Forward(smf) | Decision::Establish { smf, .. } => Some(smf),
            Decision::Return(_) => None,
        }
    }
}
