// The first four rules, which send a payload back whatever the session has.
use super::{ALLOWED, ALLOWED_LINE, COMMON_1, CONTEXT_14, EMERGENCY_14, OTHER_SLICE, UNNUMBERED};
use crate::example::{End, Example, Group, Reply, Sending, Step};
use crate::message::Message;
use crate::small_core::{
    AT_LIMIT, COMMON, EMERGENCY, EMERGENCY_1, EXAMPLE, FAILED, NOT_FORWARDED, NOT_SUPPORTED, REPLY,
    SENDING, SESSION_1, SESSION_2, SLICE, TO_SMF_7, TO_STATIC_SMF, UE,
};
use codes::{Cause, RequestType, SliceDnn};
use control::ControlNumbers;
use records::{SubscriptionLine, UeRecord};
use verdicts::{Decision, Verdict};

const AWAITING: UeRecord<'static> = UeRecord {
    awaits_registration: true,
    ..UE
};

const HIGH_PRIORITY: UeRecord<'static> = UeRecord {
    high_priority: true,
    ..UE
};

const ONE_SESSION: UeRecord<'static> = UeRecord {
    session_limit: 1,
    ..UE
};

const AWAITS: Example = Example {
    name: "rule 1",
    steps: &[
        EMERGENCY_14,
        Step::Receive(
            Sending {
                record: AWAITING,
                ..SENDING
            },
            Reply {
                number: 2,
                verdict: Verdict {
                    decision: Decision::Return(Cause::NotForwarded),
                    ..TO_SMF_7
                },
                octets: NOT_FORWARDED,
                ..REPLY
            },
            End::Taken,
        ), // another session, and the emergency session itself
        Step::Receive(
            Sending {
                record: AWAITING,
                message: Message::Octets(b"\x7E\x00\x67\x01\x00\x04\x2E\x01\x01\xC1\x12\x02\x81"),
                ..SENDING
            },
            Reply {
                number: 3,
                verdict: Verdict {
                    decision: Decision::Return(Cause::NotForwarded),
                    ..TO_SMF_7
                },
                octets: b"\x7E\x00\x68\x01\x00\x04\x2E\x01\x01\xC1\x12\x02\x58\x5A",
                ..REPLY
            },
            End::Taken,
        ),
        Step::Receive(
            Sending {
                record: AWAITING,
                message: Message::Octets(b"\x7E\x00\x67\x01\x00\x04\x2E\x01\x01\xC1\x12\x0E\x81"),
                ..SENDING
            },
            Reply {
                number: 4,
                verdict: Verdict {
                    decision: Decision::Return(Cause::NotForwarded),
                    ..TO_SMF_7
                },
                octets: b"\x7E\x00\x68\x01\x00\x04\x2E\x01\x01\xC1\x12\x0E\x58\x5A",
                ..REPLY
            },
            End::Taken,
        ), // no other request type
        Step::Receive(
            Sending {
                record: AWAITING,
                message: Message::Octets(b"\x7E\x00\x67\x01\x00\x04\x2E\x01\x01\xC1\x12\x0E\x85"),
                ..SENDING
            },
            Reply {
                number: 5,
                request_type: Some(RequestType::Modification),
                verdict: Verdict {
                    used: EMERGENCY,
                    decision: Decision::Forward(9),
                    ..TO_SMF_7
                },
                ..REPLY
            },
            End::Taken,
        ), // one that awaits nothing
        Step::Receive(SENDING, Reply { number: 6, ..REPLY }, End::Taken),
    ],
    contexts: &[SESSION_1, CONTEXT_14],
    ..EXAMPLE
};

const AWAITS_ALONE: Example = Example {
    name: "rule 1, no emergency session",
    steps: &[Step::Receive(
        Sending {
            record: AWAITING,
            ..SENDING
        },
        REPLY,
        End::Taken,
    )],
    contexts: &[SESSION_1],
    ..EXAMPLE
};

const CONGESTED: Example = Example {
    name: "rule 2",
    controls: &[
        (
            ControlNumbers {
                kind: 3,
                slice: SLICE,
                dnn: 0,
            },
            0x69,
        ),
        (
            ControlNumbers {
                kind: 2,
                slice: SLICE,
                dnn: 2,
            },
            0x67,
        ),
        (
            ControlNumbers {
                kind: 1,
                slice: SLICE,
                dnn: 1,
            },
            0x22,
        ),
    ],
    steps: &[
        Step::Receive(
            SENDING,
            Reply {
                verdict: Verdict {
                    decision: Decision::Return(Cause::Congestion(0x22)),
                    used: COMMON,
                    ..TO_SMF_7
                },
                octets: b"\x7E\x00\x68\x01\x00\x04\x2E\x01\x01\xC1\x12\x01\x58\x16\x37\x01\x22",
                ..REPLY
            },
            End::Taken,
        ),
        // an existing request that names the emergency DNN, and a modification that names one out of the book
        Step::Receive(
            Sending {
                message: Message::Octets(
                    b"\x7E\x00\x67\x01\x00\x04\x2E\x01\x01\xC1\x12\x01\x82\x25\x04\x03\x73\x6F\x73",
                ),
                ..SENDING
            },
            Reply {
                number: 2,
                request_type: Some(RequestType::Existing),
                verdict: Verdict {
                    decision: Decision::Return(Cause::SliceAndDnnCongestion(0x67)),
                    used: SliceDnn { dnn: 2, ..COMMON },
                    ..TO_SMF_7
                },
                octets: b"\x7E\x00\x68\x01\x00\x04\x2E\x01\x01\xC1\x12\x01\x58\x43\x37\x01\x67",
                ..REPLY
            },
            End::Taken,
        ),
        Step::Receive(
            Sending {
                message: Message::Octets(
                    b"\x7E\x00\x67\x01\x00\x04\x2E\x01\x01\xC1\x12\x01\x85\x25\x02\x01\x78",
                ),
                ..SENDING
            },
            Reply {
                number: 3,
                request_type: Some(RequestType::Modification),
                verdict: Verdict {
                    decision: Decision::Return(Cause::SliceCongestion(0x69)),
                    used: UNNUMBERED,
                    ..TO_SMF_7
                },
                octets: b"\x7E\x00\x68\x01\x00\x04\x2E\x01\x01\xC1\x12\x01\x58\x45\x37\x01\x69",
                ..REPLY
            },
            End::Taken,
        ), // no request type, an initial emergency request, another slice, and high priority
        Step::Receive(
            Sending {
                message: Message::Octets(b"\x7E\x00\x67\x01\x00\x04\x2E\x01\x01\xC1\x12\x01"),
                ..SENDING
            },
            Reply {
                number: 4,
                request_type: None,
                verdict: Verdict {
                    decision: Decision::Return(Cause::NotForwarded),
                    ..TO_SMF_7
                },
                octets: NOT_FORWARDED,
                ..REPLY
            },
            End::Taken,
        ),
        Step::Receive(
            Sending {
                message: Message::Octets(b"\x7E\x00\x67\x01\x00\x04\x2E\x01\x01\xC1\x12\x01\x83"),
                ..SENDING
            },
            Reply {
                number: 5,
                request_type: Some(RequestType::InitialEmergency),
                verdict: TO_STATIC_SMF,
                ..REPLY
            },
            FAILED,
        ),
        Step::Receive(
            Sending {
                message: Message::Octets(
                    b"\x7E\x00\x67\x01\x00\x04\x2E\x01\x01\xC1\x12\x01\x81\x22\x04\x02\x00\x00\x01\x25\x04\x03\x73\x6F\x73",
                ),
                ..SENDING
            },
            Reply {
                number: 6,
                verdict: Verdict {
                    used: SliceDnn {
                        slice: OTHER_SLICE,
                        dnn: 2,
                    },
                    decision: Decision::Return(Cause::DnnNotSupported),
                    ..TO_SMF_7
                },
                octets: NOT_SUPPORTED,
                ..REPLY
            },
            End::Taken,
        ),
        Step::Receive(
            Sending {
                record: HIGH_PRIORITY,
                ..SENDING
            },
            Reply { number: 7, ..REPLY },
            End::Taken,
        ),
    ],
    contexts: &[SESSION_1],
    ..EXAMPLE
};

const LIMITED: Example = Example {
    name: "rule 3",
    steps: &[
        Step::Receive(
            Sending {
                record: ONE_SESSION,
                message: Message::Octets(b"\x7E\x00\x67\x01\x00\x04\x2E\x01\x01\xC1\x12\x02\x81"),
                ..SENDING
            },
            REPLY,
            End::Taken,
        ),
        Step::Receive(
            Sending {
                record: ONE_SESSION,
                ..SENDING
            },
            Reply {
                number: 2,
                verdict: Verdict {
                    decision: Decision::Return(Cause::MaximumSessions),
                    ..TO_SMF_7
                },
                octets: AT_LIMIT,
                ..REPLY
            },
            End::Taken,
        ),
        Step::Receive(
            Sending {
                record: ONE_SESSION,
                message: Message::Octets(b"\x7E\x00\x67\x01\x00\x04\x2E\x01\x01\xC1\x12\x01\x82"),
                ..SENDING
            },
            Reply {
                number: 3,
                request_type: Some(RequestType::Existing),
                verdict: Verdict {
                    decision: Decision::Return(Cause::MaximumSessions),
                    ..TO_SMF_7
                },
                octets: AT_LIMIT,
                ..REPLY
            },
            End::Taken,
        ), // the session that it has, one more than that, and an emergency request
        Step::Receive(
            Sending {
                record: ONE_SESSION,
                message: Message::Octets(b"\x7E\x00\x67\x01\x00\x04\x2E\x01\x01\xC1\x12\x02\x81"),
                ..SENDING
            },
            Reply {
                number: 4,
                verdict: Verdict {
                    release: Some(7),
                    ..TO_SMF_7
                },
                ..REPLY
            },
            End::Taken,
        ),
        Step::Receive(
            Sending {
                record: UeRecord {
                    session_limit: 2,
                    ..UE
                },
                ..SENDING
            },
            Reply { number: 5, ..REPLY },
            FAILED,
        ),
        Step::Receive(
            Sending {
                record: ONE_SESSION,
                message: Message::Octets(b"\x7E\x00\x67\x01\x00\x04\x2E\x01\x01\xC1\x12\x01\x83"),
                ..SENDING
            },
            Reply {
                number: 6,
                request_type: Some(RequestType::InitialEmergency),
                verdict: TO_STATIC_SMF,
                ..REPLY
            },
            End::Taken,
        ),
    ],
    contexts: &[EMERGENCY_1, SESSION_2],
    ..EXAMPLE
};

const BARRED: Example = Example {
    name: "rule 4",
    steps: &[
        COMMON_1,
        Step::Receive(
            Sending {
                message: Message::Octets(b"\x7E\x00\x67\x01\x00\x04\x2E\x01\x01\xC1\x12\x01\x82"),
                ..SENDING
            },
            Reply {
                number: 2,
                request_type: Some(RequestType::Existing),
                verdict: Verdict {
                    decision: Decision::Return(Cause::NotForwarded),
                    ..TO_SMF_7
                },
                octets: NOT_FORWARDED,
                ..REPLY
            },
            End::Taken,
        ),
        Step::Receive(
            Sending {
                record: UeRecord {
                    subscriptions: &[
                        SubscriptionLine {
                            slice: OTHER_SLICE,
                            ..ALLOWED_LINE
                        },
                        SubscriptionLine {
                            allowed: false,
                            ..ALLOWED_LINE
                        },
                    ],
                    ..UE
                },
                message: Message::Octets(b"\x7E\x00\x67\x01\x00\x04\x2E\x01\x01\xC1\x12\x01\x82"),
                ..SENDING
            },
            Reply {
                number: 3,
                request_type: Some(RequestType::Existing),
                verdict: Verdict {
                    decision: Decision::Return(Cause::NotForwarded),
                    ..TO_SMF_7
                },
                octets: NOT_FORWARDED,
                ..REPLY
            },
            End::Taken,
        ), // an allowed line
        Step::Receive(
            Sending {
                record: ALLOWED,
                message: Message::Octets(b"\x7E\x00\x67\x01\x00\x04\x2E\x01\x01\xC1\x12\x01\x82"),
                ..SENDING
            },
            Reply {
                number: 4,
                request_type: Some(RequestType::Existing),
                verdict: Verdict {
                    decision: Decision::Forward(7),
                    ..TO_SMF_7
                },
                ..REPLY
            },
            End::Taken,
        ),
    ],
    contexts: &[SESSION_1],
    ..EXAMPLE
};

const BARRED_EMERGENCY: Example = Example {
    name: "rule 4, an emergency session",
    steps: &[
        EMERGENCY_14,
        Step::Receive(
            Sending {
                message: Message::Octets(b"\x7E\x00\x67\x01\x00\x04\x2E\x01\x01\xC1\x12\x0E\x82"),
                ..SENDING
            },
            Reply {
                number: 2,
                request_type: Some(RequestType::Existing),
                verdict: Verdict {
                    used: EMERGENCY,
                    decision: Decision::Forward(9),
                    ..TO_SMF_7
                },
                ..REPLY
            },
            End::Taken,
        ),
    ],
    contexts: &[CONTEXT_14],
    ..EXAMPLE
};

pub(crate) const OBJECTIONS: [Group; 4] = [
    Group {
        line: "rule 1: an initial request of a UE that awaits registration and has an emergency session goes back with 90",
        examples: &[AWAITS, AWAITS_ALONE],
    },
    Group {
        line: "rule 2: control lines send it back with 22, 67 and 69 and their back-off octets, but not under high priority",
        examples: &[CONGESTED],
    },
    Group {
        line: "rule 3: an initial or existing request beyond the session limit goes back with 65",
        examples: &[LIMITED],
    },
    Group {
        line: "rule 4: an existing request of a session whose slice no line allows goes back with 90, but not of an emergency session",
        examples: &[BARRED, BARRED_EMERGENCY],
    },
];
