// Inquiries.
ghost use Rattle.std.specs.Prelude.{◌≡◌};
ghost use Rattle.codes.specs.declared.request_type.RequestType.TheVariants.{Initial};
ghost use Rattle.verdicts.specs.Cases.{asked, requests, for_emergency};
ghost use Rattle.verdicts.specs.Rules.{held_off, known_smf};
ghost use Rattle.verdicts.specs.Used.{kept, slice_used, dnn_used, used, Uses};

use codes::{DnnNumber, RequestType, SessionId, SliceCode, SliceDnn, SmfId};
use records::{Configuration, UeRecord};
use stores::{Context, PduSession};

/// What a UE asks for one of its sessions: a message but for its octets, and what the host tells of
/// its sender and of the core.
#[derive(Clone, Copy)]
pub struct Inquiry<'a> {
    pub record: UeRecord<'a>,
    pub configuration: Configuration,
    pub session: SessionId,
    pub request_type: Option<RequestType>,
    /// The S-NSSAI that the message names, by its code.
    pub slice: Option<SliceCode>,
    /// The DNN that the message names, by its number in the book, and 0 where it is not there.
    pub dnn: Option<DnnNumber>,
}

impl<'a> Inquiry<'a> {
    /// The session that is asked for.
    pub fn pdu_session(&self) -> PduSession
        ensures ue { result.ue ≡ self.now.record.number }
        ensures id { result.id ≡ self.now.session }
    {
        PduSession {
            ue: self.record.number,
            id: self.session,
        }
    }

    // Whether the request is of this type.
    pub(crate) fn requests(&self, request_type: RequestType) -> bool
        ensures { result ≡ requests request_type (asked self.now) }
    {
        self.request_type == Some(request_type)
    }

    // Whether an emergency session is asked for.
    pub(crate) fn is_for_emergency(&self) -> bool
        ensures { result ≡ for_emergency (asked self.now) }
    {
        self.requests(RequestType::InitialEmergency)
            || self.requests(RequestType::ExistingEmergency)
    }

    // The context, unless the request is initial.
    fn kept(&self, context: Option<Context>) -> Option<Context>
        ensures { result ≡ kept (asked self.now) context }
    {
        if self.requests(RequestType::Initial) {
            return None;
        }
        context
    }

    fn slice_used(&self, kept: Option<Context>) -> SliceCode
        ensures { result ≡ slice_used (asked self.now) kept }
    {
        self.slice
            .or(kept.map(|context| context.slice))
            .or(self.record.default_slice())
            .unwrap_or(self.configuration.default.slice)
    }

    fn dnn_used(&self, kept: Option<Context>, slice: SliceCode) -> DnnNumber
        ensures { result ≡ dnn_used (asked self.now) kept slice }
    {
        self.dnn
            .or(kept.map(|context| context.dnn))
            .or(self.record.default_dnn(slice))
            .unwrap_or(self.configuration.default.dnn)
    }

    fn used(&self, context: Option<Context>) -> SliceDnn
        ensures { result ≡ used (asked self.now) context }
    {
        if self.is_for_emergency() {
            return self.configuration.emergency;
        }
        let kept = self.kept(context);
        let slice = self.slice_used(kept);
        SliceDnn {
            slice,
            dnn: self.dnn_used(kept, slice),
        }
    }

    /// The slice and the DNN that a verdict goes by, where the session has this context.
    #[tactic(auto, using(crate::proofs::Using::uses))]
    pub fn slice_and_dnn(&self, context: Option<Context>) -> SliceDnn
        ensures { Uses (asked self.now) context result }
    {
        self.used(context)
    }

    // Whether the request is one that congestion holds off.
    #[tactic(auto, unfolding(crate::specs::Rules::held_off))]
    pub(crate) fn is_held_off(&self) -> bool
        ensures { result ≡ held_off (asked self.now) }
    {
        let may_be = self.requests(RequestType::Initial)
            || self.requests(RequestType::Existing)
            || self.requests(RequestType::Modification);
        may_be && !self.record.high_priority
    }

    // The SMF that has the session elsewhere: by the session, or else by the DNN that is named.
    #[tactic(auto, unfolding(crate::specs::Rules::known_smf))]
    pub(crate) fn known_smf(&self) -> Option<SmfId>
        ensures { result ≡ known_smf (asked self.now) }
    {
        let by_session = self.record.known_session(self.session);
        match self.dnn {
            Some(dnn) => by_session.or(self.record.known_dnn(dnn)),
            None => by_session,
        }
    }
}
