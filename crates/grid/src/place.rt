// What a row keeps of a context: all but the UE and the session, which its position tells.
ghost use Rattle.std.specs.Prelude.{◌≡◌};
ghost use Rattle.grid.specs.Grids.{place_of, context_of};

use codes::{DnnNumber, SessionId, SliceCode, SmfId, UeNumber};
use stores::Context;

#[derive(Clone, Copy)]
pub struct Place {
    pub smf: SmfId,
    pub emergency: bool,
    pub slice: SliceCode,
    pub dnn: DnnNumber,
}

impl From<Context> for Place {
    ghost from_gives = { λ c p. p ≡ place_of c };

    fn from(context: Context) -> Place {
        Place {
            smf: context.smf,
            emergency: context.emergency,
            slice: context.slice,
            dnn: context.dnn,
        }
    }
}

impl Place {
    // By two numbers and no `PduSession`: the row has the one, and the position tells the other.
    pub fn context(self, ue: UeNumber, session: SessionId) -> Context
        ensures { result ≡ context_of ue session self }
    {
        Context {
            ue,
            session,
            smf: self.smf,
            emergency: self.emergency,
            slice: self.slice,
            dnn: self.dnn,
        }
    }
}
