// The routing context of a PDU session: which SMF has it, and for which slice and DNN.
ghost use Rattle.std.specs.Prelude.{◌≡◌};
ghost use Rattle.stores.specs.Contexts.{fits};

use crate::pdu_session::PduSession;
use codes::{DnnNumber, SessionId, SliceCode, SmfId, UeNumber};

/// Which SMF has a PDU session, and for which slice and DNN; the numbers may be out of bounds.
// Plain fields, as each is read by itself: nesting would only lengthen that.
#[derive(Clone, Copy)]
pub struct Context {
    pub ue: UeNumber,
    pub session: SessionId,
    pub smf: SmfId,
    pub emergency: bool,
    pub slice: SliceCode,
    pub dnn: DnnNumber,
}

impl Context {
    /// Whose context it is.
    pub fn pdu_session(&self) -> PduSession
        ensures ue { result.ue ≡ self.now.ue }
        ensures id { result.id ≡ self.now.session }
    {
        PduSession {
            ue: self.ue,
            id: self.session,
        }
    }

    /// Whether a store can have it: its session is in bounds, its SMF ID is from 1 on,
    /// and its DNN number is 64 at most.
    pub fn is_in_bounds(&self) -> bool
        ensures { result ≡ fits self.now }
    {
        self.pdu_session().is_in_bounds() && self.smf > 0 && self.dnn <= 64
    }
}
