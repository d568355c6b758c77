// The ten rows of the worked hall, each from a fresh start.
use crate::example::{End, Example, Group, Reply, Sending, Services, Step};
use crate::message::Message;
use crate::small_core::*;
use codes::{Cause, RequestType};
use control::ControlNumbers;
use records::UeRecord;
use verdicts::{Decision, Verdict};

const FORWARDED: Step = Step::Receive(SENDING, REPLY, End::Parked);

const FORWARD: Example = Example {
    name: "row 1",
    steps: &[FORWARDED],
    ..EXAMPLE
};

const UNSERVED: Example = Example {
    name: "row 2",
    services: Services::List(&[]),
    steps: &[Step::Receive(
        SENDING,
        Reply {
            verdict: Verdict {
                decision: Decision::Return(Cause::DnnNotSupported),
                ..TO_SMF_7
            },
            octets: NOT_SUPPORTED,
            ..REPLY
        },
        End::Parked,
    )],
    contexts: &[],
    ..EXAMPLE
};

const CLOSED: Example = Example {
    name: "row 3",
    services: Services::Closed(&[LINE]),
    steps: &[Step::Receive(
        SENDING,
        Reply {
            verdict: Verdict {
                decision: Decision::Return(Cause::NotForwarded),
                ..TO_SMF_7
            },
            octets: NOT_FORWARDED,
            ..REPLY
        },
        End::Parked,
    )],
    contexts: &[],
    ..EXAMPLE
};

const TWICE: Example = Example {
    name: "row 4",
    steps: &[FORWARDED, Step::Refuse(SENDING, 12)],
    ..EXAMPLE
};

const NOT_TAKEN: Example = Example {
    name: "row 5",
    steps: &[Step::Receive(SENDING, REPLY, FAILED)],
    contexts: &[],
    ..EXAMPLE
};

const AGAIN: Example = Example {
    name: "row 6",
    steps: &[
        Step::Receive(SENDING, REPLY, End::Taken),
        Step::Receive(
            SENDING,
            Reply {
                number: 2,
                verdict: Verdict {
                    release: Some(7),
                    ..TO_SMF_7
                },
                ..REPLY
            },
            End::Parked,
        ),
    ],
    ..EXAMPLE
};

const CUT_SHORT: Example = Example {
    name: "row 7",
    steps: &[Step::Receive(
        Sending {
            message: Message::Octets(WITHOUT_TYPE),
            ..SENDING
        },
        Reply {
            request_type: None,
            verdict: Verdict {
                decision: Decision::Return(Cause::NotForwarded),
                ..TO_SMF_7
            },
            octets: NOT_FORWARDED,
            ..REPLY
        },
        End::Parked,
    )],
    contexts: &[],
    ..EXAMPLE
};

const CONGESTED: Example = Example {
    name: "row 8",
    controls: &[(
        ControlNumbers {
            kind: 1,
            slice: 0,
            dnn: 1,
        },
        0x21,
    )],
    steps: &[Step::Receive(
        SENDING,
        Reply {
            verdict: Verdict {
                decision: Decision::Return(Cause::Congestion(0x21)),
                ..TO_SMF_7
            },
            octets: b"\x7E\x00\x68\x01\x00\x04\x2E\x01\x01\xC1\x12\x01\x58\x16\x37\x01\x21",
            ..REPLY
        },
        End::Parked,
    )],
    contexts: &[],
    ..EXAMPLE
};

const IN_EMERGENCY: Example = Example {
    name: "row 9",
    steps: &[Step::Receive(
        Sending {
            message: Message::Octets(INITIAL_EMERGENCY),
            ..SENDING
        },
        Reply {
            request_type: Some(RequestType::InitialEmergency),
            verdict: TO_STATIC_SMF,
            ..REPLY
        },
        End::Parked,
    )],
    contexts: &[EMERGENCY_1],
    ..EXAMPLE
};

const ONE_SESSION: UeRecord<'static> = UeRecord {
    session_limit: 1,
    ..UE
};

const LIMITED: Example = Example {
    name: "row 10",
    steps: &[
        Step::Receive(
            Sending {
                record: ONE_SESSION,
                message: Message::Octets(OTHER_SESSION),
                ..SENDING
            },
            REPLY,
            End::Taken,
        ),
        Step::Receive(
            Sending {
                record: ONE_SESSION,
                ..SENDING
            },
            Reply {
                number: 2,
                verdict: Verdict {
                    decision: Decision::Return(Cause::MaximumSessions),
                    ..TO_SMF_7
                },
                octets: AT_LIMIT,
                ..REPLY
            },
            End::Parked,
        ),
    ],
    contexts: &[SESSION_2],
    ..EXAMPLE
};

pub(crate) const WORKED_ROWS: [Group; 10] = [
    Group {
        line: "row 1: the message goes to SMF 7 under number 1, and a context is made",
        examples: &[FORWARD],
    },
    Group {
        line: "row 2: no SMF serves, and the payload goes back with 5B",
        examples: &[UNSERVED],
    },
    Group {
        line: "row 3: the directory is closed, and it goes back with 5A",
        examples: &[CLOSED],
    },
    Group {
        line: "row 4: the same message while its payload is in flight is refused with 12",
        examples: &[TWICE],
    },
    Group {
        line: "row 5: the SMF does not take it, and it goes back with 5A and leaves no context",
        examples: &[NOT_TAKEN],
    },
    Group {
        line: "row 6: it is taken, and the same message again orders the release at SMF 7",
        examples: &[AGAIN],
    },
    Group {
        line: "row 7: without its last octet the message has no request type, and goes back with 5A",
        examples: &[CUT_SHORT],
    },
    Group {
        line: "row 8: a control line for DNN 1 sends it back with 16 and its back-off octet",
        examples: &[CONGESTED],
    },
    Group {
        line: "row 9: an initial emergency request goes to SMF 9, and an emergency context is made",
        examples: &[IN_EMERGENCY],
    },
    Group {
        line: "row 10: a UE that may have one session and has another gets it back with 41",
        examples: &[LIMITED],
    },
];
