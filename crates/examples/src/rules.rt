// The ten rules of a verdict, each where it decides and where it does not quite.
pub(crate) mod elsewhere;
pub(crate) mod objections;
pub(crate) mod standing;
pub(crate) mod used;

use crate::example::{End, Reply, Sending, Services, Step};
use crate::message::Message;
use crate::small_core::{EMERGENCY_1, LINE, REPLY, SENDING, SLICE, TO_STATIC_SMF, UE};
use codes::{RequestType, SliceCode, SliceDnn};
use directories::ServiceLine;
use records::{KnownLine, SubscriptionLine, UeRecord};
use stores::Context;

pub(crate) const OTHER_SLICE: SliceCode = 0x02_00_00_01;

// SMF 7 serves DNN 1, and SMF 8 the DNN of emergency sessions.
pub(crate) const BOTH_SERVED: Services = Services::Turning(&[
    LINE,
    ServiceLine {
        dnn: 2,
        smf: 8,
        ..LINE
    },
]);

pub(crate) const BOTH_CLOSED: Services = Services::Closed(&[
    LINE,
    ServiceLine {
        dnn: 2,
        smf: 8,
        ..LINE
    },
]);

// A DNN that is not in the book.
pub(crate) const UNNUMBERED: SliceDnn = SliceDnn {
    slice: SLICE,
    dnn: 0,
};

pub(crate) const KNOWN: KnownLine = KnownLine {
    session: 1,
    dnn: 1,
    smf: 31,
};

// Session 1 is known at SMF 31, session 4 at SMF 32 and its emergency DNN, then at SMF 33.
pub(crate) const KNOWN_ELSEWHERE: UeRecord<'static> = UeRecord {
    known: &[
        KNOWN,
        KnownLine {
            session: 4,
            dnn: 2,
            smf: 32,
        },
        KnownLine {
            session: 4,
            dnn: 2,
            smf: 33,
        },
    ],
    ..UE
};

// An emergency session of number 14 is made at the static SMF.
pub(crate) const EMERGENCY_14: Step = Step::Receive(
    Sending {
        message: Message::Octets(b"\x7E\x00\x67\x01\x00\x04\x2E\x01\x01\xC1\x12\x0E\x83"),
        ..SENDING
    },
    Reply {
        request_type: Some(RequestType::InitialEmergency),
        verdict: TO_STATIC_SMF,
        ..REPLY
    },
    End::Taken,
);

pub(crate) const CONTEXT_14: Context = Context {
    session: 14,
    ..EMERGENCY_1
};

// Session 1 is made at SMF 7.
pub(crate) const COMMON_1: Step = Step::Receive(SENDING, REPLY, End::Taken);

pub(crate) const ALLOWED_LINE: SubscriptionLine = SubscriptionLine {
    slice: SLICE,
    dnn: 2,
    default_slice: false,
    default_dnn: false,
    allowed: true,
};

pub(crate) const ALLOWED: UeRecord<'static> = UeRecord {
    subscriptions: &[ALLOWED_LINE],
    ..UE
};
