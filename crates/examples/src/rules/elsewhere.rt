// The rules for a session that has no context here.
use super::{BOTH_CLOSED, BOTH_SERVED, KNOWN, KNOWN_ELSEWHERE, UNNUMBERED};
use crate::example::{End, Example, Group, Reply, Sending, Step};
use crate::message::Message;
use crate::small_core::{
    CONFIGURATION, EMERGENCY, EMERGENCY_1, EXAMPLE, NOT_FORWARDED, NOT_SUPPORTED, REPLY, SENDING,
    SESSION_1, TO_SMF_7, TO_STATIC_SMF, UE,
};
use codes::{Cause, RequestType};
use records::{Configuration, KnownLine, UeRecord};
use stores::Context;
use verdicts::{Decision, Verdict};

const WITHOUT_STATIC_SMF: Configuration = Configuration {
    static_emergency_smf: 0,
    ..CONFIGURATION
};

const KNOWN_BY_SESSION: Example = Example {
    name: "rule 7",
    steps: &[
        Step::Receive(
            Sending {
                record: KNOWN_ELSEWHERE,
                message: Message::Octets(b"\x7E\x00\x67\x01\x00\x04\x2E\x01\x01\xC1\x12\x01\x82"),
                ..SENDING
            },
            Reply {
                request_type: Some(RequestType::Existing),
                verdict: Verdict {
                    decision: Decision::Establish {
                        smf: 31,
                        emergency: false,
                    },
                    ..TO_SMF_7
                },
                ..REPLY
            },
            End::Taken,
        ),
        Step::Receive(
            Sending {
                record: KNOWN_ELSEWHERE,
                message: Message::Octets(
                    b"\x7E\x00\x67\x01\x00\x04\x2E\x01\x01\xC1\x12\x04\x82\x25\x05\x04\x6C\x6F\x6F\x6D",
                ),
                ..SENDING
            },
            Reply {
                number: 2,
                request_type: Some(RequestType::Existing),
                verdict: Verdict {
                    decision: Decision::Establish {
                        smf: 32,
                        emergency: false,
                    },
                    ..TO_SMF_7
                },
                ..REPLY
            },
            End::Taken,
        ), // by the DNN that is named
        Step::Receive(
            Sending {
                record: KNOWN_ELSEWHERE,
                message: Message::Octets(
                    b"\x7E\x00\x67\x01\x00\x04\x2E\x01\x01\xC1\x12\x05\x82\x25\x05\x04\x6C\x6F\x6F\x6D",
                ),
                ..SENDING
            },
            Reply {
                number: 3,
                request_type: Some(RequestType::Existing),
                verdict: Verdict {
                    decision: Decision::Establish {
                        smf: 31,
                        emergency: false,
                    },
                    ..TO_SMF_7
                },
                ..REPLY
            },
            End::Taken,
        ), // by none, and by one that no line has
        Step::Receive(
            Sending {
                record: KNOWN_ELSEWHERE,
                message: Message::Octets(b"\x7E\x00\x67\x01\x00\x04\x2E\x01\x01\xC1\x12\x06\x82"),
                ..SENDING
            },
            Reply {
                number: 4,
                request_type: Some(RequestType::Existing),
                verdict: Verdict {
                    decision: Decision::Return(Cause::NotForwarded),
                    ..TO_SMF_7
                },
                octets: b"\x7E\x00\x68\x01\x00\x04\x2E\x01\x01\xC1\x12\x06\x58\x5A",
                ..REPLY
            },
            End::Taken,
        ),
        Step::Receive(
            Sending {
                record: KNOWN_ELSEWHERE,
                message: Message::Octets(
                    b"\x7E\x00\x67\x01\x00\x04\x2E\x01\x01\xC1\x12\x06\x82\x25\x02\x01\x78",
                ),
                ..SENDING
            },
            Reply {
                number: 5,
                request_type: Some(RequestType::Existing),
                verdict: Verdict {
                    used: UNNUMBERED,
                    decision: Decision::Return(Cause::NotForwarded),
                    ..TO_SMF_7
                },
                octets: b"\x7E\x00\x68\x01\x00\x04\x2E\x01\x01\xC1\x12\x06\x58\x5A",
                ..REPLY
            },
            End::Taken,
        ),
    ],
    contexts: &[
        Context {
            smf: 31,
            ..SESSION_1
        },
        Context {
            session: 4,
            smf: 32,
            ..SESSION_1
        },
        Context {
            session: 5,
            smf: 31,
            ..SESSION_1
        },
    ],
    ..EXAMPLE
};

const OTHER_EMERGENCY: Example = Example {
    name: "rule 8",
    steps: &[
        Step::Receive(
            Sending {
                record: UeRecord {
                    known: &[KnownLine {
                        session: 4,
                        dnn: 2,
                        smf: 34,
                    }],
                    ..UE
                },
                message: Message::Octets(b"\x7E\x00\x67\x01\x00\x04\x2E\x01\x01\xC1\x12\x0E\x84"),
                ..SENDING
            },
            Reply {
                request_type: Some(RequestType::ExistingEmergency),
                verdict: Verdict {
                    used: EMERGENCY,
                    decision: Decision::Establish {
                        smf: 34,
                        emergency: true,
                    },
                    ..TO_SMF_7
                },
                ..REPLY
            },
            End::Taken,
        ),
        Step::Receive(
            Sending {
                record: UeRecord {
                    known: &[KnownLine {
                        session: 4,
                        dnn: 2,
                        smf: 32,
                    }],
                    ..UE
                },
                message: Message::Octets(b"\x7E\x00\x67\x01\x00\x04\x2E\x01\x01\xC1\x12\x0C\x84"),
                ..SENDING
            },
            Reply {
                number: 2,
                request_type: Some(RequestType::ExistingEmergency),
                verdict: Verdict {
                    used: EMERGENCY,
                    decision: Decision::Establish {
                        smf: 32,
                        emergency: true,
                    },
                    ..TO_SMF_7
                },
                ..REPLY
            },
            End::Taken,
        ),
        Step::Receive(
            Sending {
                message: Message::Octets(b"\x7E\x00\x67\x01\x00\x04\x2E\x01\x01\xC1\x12\x01\x83"),
                ..SENDING
            },
            Reply {
                number: 3,
                request_type: Some(RequestType::InitialEmergency),
                verdict: Verdict {
                    used: EMERGENCY,
                    decision: Decision::Establish {
                        smf: 32,
                        emergency: true,
                    },
                    ..TO_SMF_7
                },
                ..REPLY
            },
            End::Taken,
        ), // another UE has no emergency session
        Step::Receive(
            Sending {
                record: UeRecord { number: 6, ..UE },
                message: Message::Octets(b"\x7E\x00\x67\x01\x00\x04\x2E\x01\x01\xC1\x12\x01\x83"),
                ..SENDING
            },
            Reply {
                number: 4,
                request_type: Some(RequestType::InitialEmergency),
                verdict: TO_STATIC_SMF,
                ..REPLY
            },
            End::Taken,
        ),
    ],
    contexts: &[
        Context {
            smf: 32,
            ..EMERGENCY_1
        },
        Context {
            session: 12,
            smf: 32,
            ..EMERGENCY_1
        },
        Context {
            session: 14,
            smf: 34,
            ..EMERGENCY_1
        },
    ],
    ..EXAMPLE
};

const STATIC: Example = Example {
    name: "rule 8, the static SMF",
    steps: &[Step::Receive(
        Sending {
            message: Message::Octets(b"\x7E\x00\x67\x01\x00\x04\x2E\x01\x01\xC1\x12\x01\x83"),
            ..SENDING
        },
        Reply {
            request_type: Some(RequestType::InitialEmergency),
            verdict: TO_STATIC_SMF,
            ..REPLY
        },
        End::Taken,
    )],
    contexts: &[EMERGENCY_1],
    ..EXAMPLE
};

const CHOSEN_EMERGENCY: Example = Example {
    name: "rule 8, no static SMF",
    configuration: WITHOUT_STATIC_SMF,
    services: BOTH_SERVED,
    steps: &[Step::Receive(
        Sending {
            message: Message::Octets(b"\x7E\x00\x67\x01\x00\x04\x2E\x01\x01\xC1\x12\x01\x83"),
            ..SENDING
        },
        Reply {
            request_type: Some(RequestType::InitialEmergency),
            verdict: Verdict {
                used: EMERGENCY,
                decision: Decision::Establish {
                    smf: 8,
                    emergency: true,
                },
                ..TO_SMF_7
            },
            ..REPLY
        },
        End::Taken,
    )],
    contexts: &[Context {
        smf: 8,
        ..EMERGENCY_1
    }],
    ..EXAMPLE
};

const UNSERVED_EMERGENCY: Example = Example {
    name: "rule 8, none serves",
    configuration: WITHOUT_STATIC_SMF,
    steps: &[Step::Receive(
        Sending {
            message: Message::Octets(b"\x7E\x00\x67\x01\x00\x04\x2E\x01\x01\xC1\x12\x01\x83"),
            ..SENDING
        },
        Reply {
            request_type: Some(RequestType::InitialEmergency),
            verdict: Verdict {
                used: EMERGENCY,
                decision: Decision::Return(Cause::DnnNotSupported),
                ..TO_SMF_7
            },
            octets: NOT_SUPPORTED,
            ..REPLY
        },
        End::Taken,
    )],
    contexts: &[],
    ..EXAMPLE
};

const CLOSED_EMERGENCY: Example = Example {
    name: "rule 8, closed",
    configuration: WITHOUT_STATIC_SMF,
    services: BOTH_CLOSED,
    steps: &[Step::Receive(
        Sending {
            message: Message::Octets(b"\x7E\x00\x67\x01\x00\x04\x2E\x01\x01\xC1\x12\x01\x83"),
            ..SENDING
        },
        Reply {
            request_type: Some(RequestType::InitialEmergency),
            verdict: Verdict {
                used: EMERGENCY,
                decision: Decision::Return(Cause::NotForwarded),
                ..TO_SMF_7
            },
            octets: NOT_FORWARDED,
            ..REPLY
        },
        End::Taken,
    )],
    contexts: &[],
    ..EXAMPLE
};

const KNOWN_EMERGENCY: Example = Example {
    name: "rule 9",
    steps: &[
        Step::Receive(
            Sending {
                record: KNOWN_ELSEWHERE,
                message: Message::Octets(b"\x7E\x00\x67\x01\x00\x04\x2E\x01\x01\xC1\x12\x01\x84"),
                ..SENDING
            },
            Reply {
                request_type: Some(RequestType::ExistingEmergency),
                verdict: Verdict {
                    used: EMERGENCY,
                    decision: Decision::Establish {
                        smf: 32,
                        emergency: true,
                    },
                    ..TO_SMF_7
                },
                ..REPLY
            },
            End::Taken,
        ), // no line has the emergency DNN
        Step::Receive(
            Sending {
                record: UeRecord {
                    known: &[KNOWN],
                    ..UE
                },
                message: Message::Octets(b"\x7E\x00\x67\x01\x00\x04\x2E\x01\x01\xC1\x12\x02\x84"),
                ..SENDING
            },
            Reply {
                number: 2,
                request_type: Some(RequestType::ExistingEmergency),
                verdict: Verdict {
                    used: EMERGENCY,
                    decision: Decision::Return(Cause::NotForwarded),
                    ..TO_SMF_7
                },
                octets: b"\x7E\x00\x68\x01\x00\x04\x2E\x01\x01\xC1\x12\x02\x58\x5A",
                ..REPLY
            },
            End::Taken,
        ),
    ],
    contexts: &[Context {
        smf: 32,
        ..EMERGENCY_1
    }],
    ..EXAMPLE
};

const NOTHING_STANDS: Example = Example {
    name: "rule 10",
    steps: &[
        Step::Receive(
            Sending {
                message: Message::Octets(b"\x7E\x00\x67\x01\x00\x04\x2E\x01\x01\xC1\x12\x01"),
                ..SENDING
            },
            Reply {
                request_type: None,
                verdict: Verdict {
                    decision: Decision::Return(Cause::NotForwarded),
                    ..TO_SMF_7
                },
                octets: NOT_FORWARDED,
                ..REPLY
            },
            End::Taken,
        ),
        Step::Receive(
            Sending {
                message: Message::Octets(b"\x7E\x00\x67\x01\x00\x04\x2E\x01\x01\xC1\x12\x01\x85"),
                ..SENDING
            },
            Reply {
                number: 2,
                request_type: Some(RequestType::Modification),
                verdict: Verdict {
                    decision: Decision::Return(Cause::NotForwarded),
                    ..TO_SMF_7
                },
                octets: NOT_FORWARDED,
                ..REPLY
            },
            End::Taken,
        ),
    ],
    contexts: &[],
    ..EXAMPLE
};

pub(crate) const ELSEWHERE_RULES: [Group; 4] = [
    Group {
        line: "rule 7: an existing request goes to the SMF of the known line of its session, else of its DNN, else back with 90",
        examples: &[KNOWN_BY_SESSION],
    },
    Group {
        line: "rule 8: an initial emergency request goes to the SMF of the lowest other emergency session, else to the static one, else as the directory chooses",
        examples: &[
            OTHER_EMERGENCY,
            STATIC,
            CHOSEN_EMERGENCY,
            UNSERVED_EMERGENCY,
            CLOSED_EMERGENCY,
        ],
    },
    Group {
        line: "rule 9: an existing emergency request goes to the SMF of the first known line of the emergency DNN, else back with 90",
        examples: &[KNOWN_EMERGENCY],
    },
    Group {
        line: "rule 10: no request type, or a modification, where no context stands goes back with 90",
        examples: &[NOTHING_STANDS],
    },
];
