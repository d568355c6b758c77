// Verdicts.
ghost use Rattle.std.specs.Prelude.{◌≡◌};
ghost use Rattle.verdicts.specs.Verdicts.{context_of};

use crate::decision::Decision;
use codes::{SliceDnn, SmfId};
use stores::{Context, PduSession};

/// The verdict on a payload.
#[derive(Clone, Copy, Debug, PartialEq, Eq)]
pub struct Verdict {
    /// The slice and the DNN that it goes by.
    pub used: SliceDnn,
    pub decision: Decision,
    /// The SMF at which the session is to be released.
    pub release: Option<SmfId>,
}

impl Verdict {
    /// The context that is to be put for the session, where one is.
    pub fn context(&self, session: PduSession) -> Option<Context>
        ensures { result ≡ context_of self.now session.ue session.id }
    {
        let Decision::Establish { smf, emergency } = self.decision else {
            return None;
        };
        Some(Context {
            ue: session.ue,
            session: session.id,
            smf,
            emergency,
            slice: self.used.slice,
            dnn: self.used.dnn,
        })
    }
}
