// The small core that the examples begin with, and messages of UE 5 in it.
use crate::example::{End, Example, Failing, Reply, Sending, Services, Stores};
use crate::message::Message;
use codes::{RequestType, SliceCode, SliceDnn};
use directories::ServiceLine;
use records::{Configuration, UeRecord};
use router::POOL_LENGTH;
use stores::Context;
use verdicts::{Decision, Verdict};

pub(crate) const NAMES: [&[u8]; 2] = [b"\x04loom", b"\x03sos"];

pub(crate) const SLICE: SliceCode = 0x01_FF_FF_FF;

pub(crate) const COMMON: SliceDnn = SliceDnn {
    slice: SLICE,
    dnn: 1,
};

pub(crate) const EMERGENCY: SliceDnn = SliceDnn {
    slice: SLICE,
    dnn: 2,
};

pub(crate) const CONFIGURATION: Configuration = Configuration {
    default: COMMON,
    emergency: EMERGENCY,
    static_emergency_smf: 9,
};

// SMF 7 serves DNN 1.
pub(crate) const LINE: ServiceLine = ServiceLine {
    slice: SLICE,
    dnn: 1,
    smf: 7,
};

pub(crate) const UE: UeRecord<'static> = UeRecord {
    number: 5,
    high_priority: false,
    awaits_registration: false,
    session_limit: 15,
    subscriptions: &[],
    known: &[],
};

// ---- messages

pub(crate) const INITIAL: Option<RequestType> = Some(RequestType::Initial);

// An initial request of session 1.
pub(crate) const SAMPLE: &[u8] = b"\x7E\x00\x67\x01\x00\x04\x2E\x01\x01\xC1\x12\x01\x81";

pub(crate) const WITHOUT_TYPE: &[u8] = b"\x7E\x00\x67\x01\x00\x04\x2E\x01\x01\xC1\x12\x01";

pub(crate) const INITIAL_EMERGENCY: &[u8] = b"\x7E\x00\x67\x01\x00\x04\x2E\x01\x01\xC1\x12\x01\x83";

// An initial request of session 2.
pub(crate) const OTHER_SESSION: &[u8] = b"\x7E\x00\x67\x01\x00\x04\x2E\x01\x01\xC1\x12\x02\x81";

pub(crate) const PAYLOAD: &[u8] = b"\x2E\x01\x01\xC1";

pub(crate) const OUTPUT_LENGTH: usize = 4096;

pub(crate) const SENDING: Sending = Sending {
    record: UE,
    message: Message::Octets(SAMPLE),
    pool: POOL_LENGTH,
    output: OUTPUT_LENGTH,
};

// ---- what goes back

pub(crate) const NOT_FORWARDED: &[u8] = b"\x7E\x00\x68\x01\x00\x04\x2E\x01\x01\xC1\x12\x01\x58\x5A";

pub(crate) const NOT_SUPPORTED: &[u8] = b"\x7E\x00\x68\x01\x00\x04\x2E\x01\x01\xC1\x12\x01\x58\x5B";

pub(crate) const AT_LIMIT: &[u8] = b"\x7E\x00\x68\x01\x00\x04\x2E\x01\x01\xC1\x12\x01\x58\x41";

// ---- verdicts and replies

pub(crate) const TO_SMF_7: Verdict = Verdict {
    used: COMMON,
    decision: Decision::Establish {
        smf: 7,
        emergency: false,
    },
    release: None,
};

pub(crate) const TO_STATIC_SMF: Verdict = Verdict {
    used: EMERGENCY,
    decision: Decision::Establish {
        smf: 9,
        emergency: true,
    },
    release: None,
};

// The sample message is forwarded under number 1.
pub(crate) const REPLY: Reply = Reply {
    number: 1,
    old_session: None,
    request_type: INITIAL,
    verdict: TO_SMF_7,
    octets: PAYLOAD,
};

pub(crate) const FAILED: End = End::Failed(Failing {
    pool: POOL_LENGTH,
    output: OUTPUT_LENGTH,
    reply: Ok(NOT_FORWARDED),
});

// ---- contexts

pub(crate) const SESSION_1: Context = Context {
    ue: 5,
    session: 1,
    smf: 7,
    emergency: false,
    slice: SLICE,
    dnn: 1,
};

pub(crate) const SESSION_2: Context = Context {
    session: 2,
    ..SESSION_1
};

pub(crate) const EMERGENCY_1: Context = Context {
    smf: 9,
    emergency: true,
    dnn: 2,
    ..SESSION_1
};

// ---- an example to begin with

pub(crate) const EXAMPLE: Example = Example {
    name: "",
    stores: Stores::Both,
    configuration: CONFIGURATION,
    first: 1,
    services: Services::List(&[LINE]),
    controls: &[],
    steps: &[],
    contexts: &[SESSION_1],
};
