// The rules for a context that stands, and for every initial request.
use super::{
    ALLOWED, BOTH_CLOSED, BOTH_SERVED, COMMON_1, CONTEXT_14, EMERGENCY_14, KNOWN_ELSEWHERE,
    UNNUMBERED,
};
use crate::example::{End, Example, Group, Reply, Sending, Services, Step};
use crate::message::Message;
use crate::small_core::{
    COMMON, EMERGENCY, EXAMPLE, FAILED, LINE, NOT_FORWARDED, NOT_SUPPORTED, REPLY, SENDING,
    SESSION_1, SESSION_2, TO_SMF_7, WITHOUT_TYPE,
};
use codes::{Cause, RequestType, SliceDnn};
use directories::ServiceLine;
use stores::{Context, PduSession};
use verdicts::{Decision, Verdict};

const STANDING: Example = Example {
    name: "rule 5",
    steps: &[
        COMMON_1,
        Step::Receive(
            Sending {
                message: Message::Octets(b"\x7E\x00\x67\x01\x00\x04\x2E\x01\x01\xC1\x12\x01"),
                ..SENDING
            },
            Reply {
                number: 2,
                request_type: None,
                verdict: Verdict {
                    decision: Decision::Forward(7),
                    ..TO_SMF_7
                },
                ..REPLY
            },
            End::Taken,
        ),
        Step::Receive(
            Sending {
                record: ALLOWED,
                message: Message::Octets(b"\x7E\x00\x67\x01\x00\x04\x2E\x01\x01\xC1\x12\x01\x82"),
                ..SENDING
            },
            Reply {
                number: 3,
                request_type: Some(RequestType::Existing),
                verdict: Verdict {
                    decision: Decision::Forward(7),
                    ..TO_SMF_7
                },
                ..REPLY
            },
            End::Taken,
        ), // that the SMF does not take it leaves the context that stood
        Step::Receive(
            Sending {
                message: Message::Octets(b"\x7E\x00\x67\x01\x00\x04\x2E\x01\x01\xC1\x12\x01\x85"),
                ..SENDING
            },
            Reply {
                number: 4,
                request_type: Some(RequestType::Modification),
                verdict: Verdict {
                    decision: Decision::Forward(7),
                    ..TO_SMF_7
                },
                ..REPLY
            },
            FAILED,
        ),
        Step::Receive(
            Sending {
                message: Message::Octets(b"\x7E\x00\x67\x01\x00\x04\x2E\x01\x01\xC1\x12\x01\x83"),
                ..SENDING
            },
            Reply {
                number: 5,
                request_type: Some(RequestType::InitialEmergency),
                verdict: Verdict {
                    used: EMERGENCY,
                    decision: Decision::Return(Cause::NotForwarded),
                    ..TO_SMF_7
                },
                octets: NOT_FORWARDED,
                ..REPLY
            },
            End::Taken,
        ),
        Step::Receive(
            Sending {
                message: Message::Octets(b"\x7E\x00\x67\x01\x00\x04\x2E\x01\x01\xC1\x12\x01\x84"),
                ..SENDING
            },
            Reply {
                number: 6,
                request_type: Some(RequestType::ExistingEmergency),
                verdict: Verdict {
                    used: EMERGENCY,
                    decision: Decision::Return(Cause::NotForwarded),
                    ..TO_SMF_7
                },
                octets: NOT_FORWARDED,
                ..REPLY
            },
            End::Taken,
        ),
    ],
    contexts: &[SESSION_1],
    ..EXAMPLE
};

const STANDING_EMERGENCY: Example = Example {
    name: "rule 5, an emergency session",
    steps: &[
        EMERGENCY_14,
        Step::Receive(
            Sending {
                message: Message::Octets(b"\x7E\x00\x67\x01\x00\x04\x2E\x01\x01\xC1\x12\x0E\x83"),
                ..SENDING
            },
            Reply {
                number: 2,
                request_type: Some(RequestType::InitialEmergency),
                verdict: Verdict {
                    used: EMERGENCY,
                    decision: Decision::Forward(9),
                    ..TO_SMF_7
                },
                ..REPLY
            },
            End::Taken,
        ),
        Step::Receive(
            Sending {
                message: Message::Octets(b"\x7E\x00\x67\x01\x00\x04\x2E\x01\x01\xC1\x12\x0E\x84"),
                ..SENDING
            },
            Reply {
                number: 3,
                request_type: Some(RequestType::ExistingEmergency),
                verdict: Verdict {
                    used: EMERGENCY,
                    decision: Decision::Forward(9),
                    ..TO_SMF_7
                },
                ..REPLY
            },
            End::Taken,
        ),
        Step::Receive(
            Sending {
                message: Message::Octets(b"\x7E\x00\x67\x01\x00\x04\x2E\x01\x01\xC1\x12\x0E"),
                ..SENDING
            },
            Reply {
                number: 4,
                request_type: None,
                verdict: Verdict {
                    used: EMERGENCY,
                    decision: Decision::Forward(9),
                    ..TO_SMF_7
                },
                ..REPLY
            },
            End::Taken,
        ),
    ],
    contexts: &[CONTEXT_14],
    ..EXAMPLE
};

const CHOSEN: Example = Example {
    name: "rule 6",
    services: BOTH_SERVED,
    steps: &[ // an old session is carried along
        Step::Receive(
            Sending {
                message: Message::Octets(
                    b"\x7E\x00\x67\x01\x00\x04\x2E\x01\x01\xC1\x12\x01\x81\x59\x02",
                ),
                ..SENDING
            },
            Reply {
                old_session: Some(2),
                ..REPLY
            },
            End::Taken,
        ),
        Step::Receive(
            SENDING,
            Reply {
                number: 2,
                verdict: Verdict {
                    release: Some(7),
                    ..TO_SMF_7
                },
                ..REPLY
            },
            End::Taken,
        ),
        Step::Receive(
            Sending {
                message: Message::Octets(
                    b"\x7E\x00\x67\x01\x00\x04\x2E\x01\x01\xC1\x12\x02\x81\x25\x04\x03\x73\x6F\x73",
                ),
                ..SENDING
            },
            Reply {
                number: 3,
                verdict: Verdict {
                    used: SliceDnn { dnn: 2, ..COMMON },
                    decision: Decision::Establish {
                        smf: 8,
                        emergency: false,
                    },
                    ..TO_SMF_7
                },
                ..REPLY
            },
            End::Taken,
        ), // none serves, and the context is gone
        Step::Receive(
            Sending {
                message: Message::Octets(
                    b"\x7E\x00\x67\x01\x00\x04\x2E\x01\x01\xC1\x12\x01\x81\x25\x02\x01\x78",
                ),
                ..SENDING
            },
            Reply {
                number: 4,
                verdict: Verdict {
                    used: UNNUMBERED,
                    decision: Decision::Return(Cause::DnnNotSupported),
                    release: Some(7),
                    ..TO_SMF_7
                },
                octets: NOT_SUPPORTED,
                ..REPLY
            },
            End::Taken,
        ),
        Step::Find(PduSession { ue: 5, id: 1 }, None),
        Step::Receive(SENDING, Reply { number: 5, ..REPLY }, End::Taken),
    ],
    contexts: &[
        SESSION_1,
        Context {
            smf: 8,
            dnn: 2,
            ..SESSION_2
        },
    ],
    ..EXAMPLE
};

const TURNS: Example = Example {
    name: "rule 6, in turn",
    services: Services::Turning(&[LINE, ServiceLine { smf: 3, ..LINE }]),
    steps: &[
        Step::Receive(
            SENDING,
            Reply {
                verdict: Verdict {
                    decision: Decision::Establish {
                        smf: 3,
                        emergency: false,
                    },
                    ..TO_SMF_7
                },
                ..REPLY
            },
            End::Taken,
        ),
        // Neither what is refused nor what the context decides takes a turn.
        Step::Refuse(Sending { pool: 0, ..SENDING }, 2),
        Step::Receive(
            Sending {
                message: Message::Octets(WITHOUT_TYPE),
                ..SENDING
            },
            Reply {
                number: 2,
                request_type: None,
                verdict: Verdict {
                    decision: Decision::Forward(3),
                    ..TO_SMF_7
                },
                ..REPLY
            },
            End::Taken,
        ),
        Step::Receive(
            SENDING,
            Reply {
                number: 3,
                verdict: Verdict {
                    decision: Decision::Establish {
                        smf: 7,
                        emergency: false,
                    },
                    release: Some(3),
                    ..TO_SMF_7
                },
                ..REPLY
            },
            End::Taken,
        ),
        Step::Receive(
            SENDING,
            Reply {
                number: 4,
                verdict: Verdict {
                    decision: Decision::Establish {
                        smf: 3,
                        emergency: false,
                    },
                    release: Some(7),
                    ..TO_SMF_7
                },
                ..REPLY
            },
            End::Taken,
        ),
    ],
    contexts: &[Context {
        smf: 3,
        ..SESSION_1
    }],
    ..EXAMPLE
};

const CHOICE_CLOSED: Example = Example {
    name: "rule 6, closed",
    services: BOTH_CLOSED,
    steps: &[
        Step::Receive(
            Sending {
                record: KNOWN_ELSEWHERE,
                message: Message::Octets(b"\x7E\x00\x67\x01\x00\x04\x2E\x01\x01\xC1\x12\x01\x82"),
                ..SENDING
            },
            Reply {
                request_type: Some(RequestType::Existing),
                verdict: Verdict {
                    decision: Decision::Establish {
                        smf: 31,
                        emergency: false,
                    },
                    ..TO_SMF_7
                },
                ..REPLY
            },
            End::Taken,
        ),
        Step::Receive(
            SENDING,
            Reply {
                number: 2,
                verdict: Verdict {
                    decision: Decision::Return(Cause::NotForwarded),
                    release: Some(31),
                    ..TO_SMF_7
                },
                octets: NOT_FORWARDED,
                ..REPLY
            },
            End::Taken,
        ),
    ],
    contexts: &[],
    ..EXAMPLE
};

pub(crate) const STANDING_RULES: [Group; 2] = [
    Group {
        line: "rule 5: where a context stands it goes to its SMF, but an emergency request only if it is an emergency context",
        examples: &[STANDING, STANDING_EMERGENCY],
    },
    Group {
        line: "rule 6: the directory chooses for an initial request, or it goes back with 91 or 90; a context that stood is released",
        examples: &[CHOSEN, TURNS, CHOICE_CLOSED],
    },
];
