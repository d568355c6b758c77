// What a receive refuses for the sake of the UE record, the buffers, the flights, the store and the
// ticket numbers, and what it accepts beside that.
use crate::example::{End, Example, Failing, Group, Reply, Sending, Step, Stores};
use crate::message::Message;
use crate::small_core::*;
use records::{KnownLine, SubscriptionLine, UeRecord};
use router::POOL_LENGTH;
use stores::PduSession;
use verdicts::Verdict;

const SUBSCRIPTION: SubscriptionLine = SubscriptionLine {
    slice: SLICE,
    dnn: 2,
    default_slice: false,
    default_dnn: false,
    allowed: false,
};

const KNOWN: KnownLine = KnownLine {
    session: 15,
    dnn: 2,
    smf: 1,
};

const RECORDS: Example = Example {
    name: "refusal 1",
    steps: &[
        Step::Refuse(
            Sending {
                record: UeRecord { number: 0, ..UE },
                ..SENDING
            },
            1,
        ),
        Step::Refuse(
            Sending {
                record: UeRecord {
                    session_limit: 0,
                    ..UE
                },
                ..SENDING
            },
            1,
        ),
        Step::Refuse(
            Sending {
                record: UeRecord {
                    session_limit: 16,
                    ..UE
                },
                ..SENDING
            },
            1,
        ),
        Step::Refuse(
            Sending {
                record: UeRecord {
                    subscriptions: &[SUBSCRIPTION; 33],
                    ..UE
                },
                ..SENDING
            },
            1,
        ),
        Step::Refuse(
            Sending {
                record: UeRecord {
                    known: &[KNOWN; 16],
                    ..UE
                },
                ..SENDING
            },
            1,
        ),
        Step::Refuse(
            Sending {
                record: UeRecord {
                    subscriptions: &[SubscriptionLine {
                        dnn: 0,
                        ..SUBSCRIPTION
                    }],
                    ..UE
                },
                ..SENDING
            },
            1,
        ),
        Step::Refuse(
            Sending {
                record: UeRecord {
                    subscriptions: &[SubscriptionLine {
                        dnn: 3,
                        ..SUBSCRIPTION
                    }],
                    ..UE
                },
                ..SENDING
            },
            1,
        ),
        Step::Refuse(
            Sending {
                record: UeRecord {
                    known: &[KnownLine {
                        session: 0,
                        ..KNOWN
                    }],
                    ..UE
                },
                ..SENDING
            },
            1,
        ),
        Step::Refuse(
            Sending {
                record: UeRecord {
                    known: &[KnownLine {
                        session: 16,
                        ..KNOWN
                    }],
                    ..UE
                },
                ..SENDING
            },
            1,
        ),
        Step::Refuse(
            Sending {
                record: UeRecord {
                    known: &[KnownLine { dnn: 3, ..KNOWN }],
                    ..UE
                },
                ..SENDING
            },
            1,
        ),
        Step::Refuse(
            Sending {
                record: UeRecord {
                    known: &[KnownLine { smf: 0, ..KNOWN }],
                    ..UE
                },
                ..SENDING
            },
            1,
        ),
        Step::Receive(
            Sending {
                record: UeRecord { number: 1, ..UE },
                ..SENDING
            },
            Reply { number: 1, ..REPLY },
            FAILED,
        ),
        Step::Receive(
            Sending {
                record: UeRecord {
                    number: 4_294_967_295,
                    ..UE
                },
                ..SENDING
            },
            Reply { number: 2, ..REPLY },
            FAILED,
        ),
        Step::Receive(
            Sending {
                record: UeRecord {
                    session_limit: 1,
                    ..UE
                },
                ..SENDING
            },
            Reply { number: 3, ..REPLY },
            FAILED,
        ),
        Step::Receive(
            Sending {
                record: UeRecord {
                    session_limit: 15,
                    ..UE
                },
                ..SENDING
            },
            Reply { number: 4, ..REPLY },
            FAILED,
        ),
        Step::Receive(
            Sending {
                record: UeRecord {
                    subscriptions: &[SUBSCRIPTION; 32],
                    ..UE
                },
                ..SENDING
            },
            Reply { number: 5, ..REPLY },
            FAILED,
        ),
        Step::Receive(
            Sending {
                record: UeRecord {
                    known: &[KNOWN; 15],
                    ..UE
                },
                ..SENDING
            },
            Reply { number: 6, ..REPLY },
            FAILED,
        ),
        Step::Receive(
            Sending {
                record: UeRecord {
                    known: &[KnownLine {
                        session: 1,
                        smf: 255,
                        ..KNOWN
                    }],
                    ..UE
                },
                ..SENDING
            },
            Reply { number: 7, ..REPLY },
            FAILED,
        ),
    ],
    contexts: &[],
    ..EXAMPLE
};

const POOLS: Example = Example {
    name: "refusal 2",
    steps: &[
        Step::Refuse(
            Sending {
                pool: POOL_LENGTH - 1,
                ..SENDING
            },
            2,
        ),
        Step::Refuse(Sending { pool: 0, ..SENDING }, 2),
        Step::Receive(SENDING, REPLY, End::Parked),
        Step::Payload(1, POOL_LENGTH - 1, Err(2)),
        Step::Payload(1, POOL_LENGTH, Ok(PAYLOAD)),
        Step::Pick(
            1,
            End::Failed(Failing {
                pool: POOL_LENGTH - 1,
                output: OUTPUT_LENGTH,
                reply: Err(2),
            }),
        ),
        Step::Pick(1, FAILED),
    ],
    contexts: &[],
    ..EXAMPLE
};

const OUTPUTS: Example = Example {
    name: "refusal 11",
    steps: &[
        Step::Refuse(
            Sending {
                output: 16,
                ..SENDING
            },
            11,
        ),
        Step::Refuse(
            Sending {
                output: 0,
                ..SENDING
            },
            11,
        ), // the longest payload
        Step::Refuse(
            Sending {
                message: Message::Payload {
                    claimed: 2048,
                    carried: 2048,
                },
                output: 2060,
                ..SENDING
            },
            11,
        ),
        Step::Receive(
            Sending {
                output: 17,
                ..SENDING
            },
            REPLY,
            End::Parked,
        ),
        Step::Pick(
            1,
            End::Failed(Failing {
                pool: POOL_LENGTH,
                output: 16,
                reply: Err(11),
            }),
        ),
        Step::Pick(
            1,
            End::Failed(Failing {
                pool: POOL_LENGTH,
                output: 17,
                reply: Ok(NOT_FORWARDED),
            }),
        ),
        Step::Receive(
            Sending {
                message: Message::Payload {
                    claimed: 2048,
                    carried: 2048,
                },
                output: 2061,
                ..SENDING
            },
            Reply {
                number: 2,
                octets: &[0x2E; 2048],
                ..REPLY
            },
            End::Taken,
        ),
    ],
    contexts: &[SESSION_1],
    ..EXAMPLE
};

const PAIRS: Example = Example {
    name: "refusal 12",
    steps: &[
        Step::Receive(SENDING, REPLY, End::Parked),
        Step::Refuse(SENDING, 12),
        Step::Refuse(
            Sending {
                message: Message::Octets(WITHOUT_TYPE),
                ..SENDING
            },
            12,
        ),
        Step::Receive(
            Sending {
                message: Message::Octets(OTHER_SESSION),
                ..SENDING
            },
            Reply { number: 2, ..REPLY },
            End::Parked,
        ),
        Step::Receive(
            Sending {
                record: UeRecord { number: 6, ..UE },
                ..SENDING
            },
            Reply { number: 3, ..REPLY },
            End::Parked,
        ),
        Step::Refuse(SENDING, 12),
        Step::Pick(1, FAILED),
        Step::Receive(SENDING, Reply { number: 4, ..REPLY }, End::Parked),
    ],
    contexts: &[SESSION_1, SESSION_2],
    ..EXAMPLE
};

const FLIGHTS: Example = Example {
    name: "refusal 13",
    steps: &[
        Step::Fly(101, 16, 1),
        Step::Refuse(SENDING, 13), // the pair of one of them
        Step::Refuse(
            Sending {
                record: UeRecord { number: 101, ..UE },
                ..SENDING
            },
            12,
        ),
        Step::Payload(16, POOL_LENGTH, Ok(PAYLOAD)),
        Step::Pick(3, FAILED),
        Step::Receive(
            SENDING,
            Reply {
                number: 17,
                ..REPLY
            },
            End::Parked,
        ),
        Step::Refuse(
            Sending {
                message: Message::Octets(OTHER_SESSION),
                ..SENDING
            },
            13,
        ),
    ],
    contexts: &[SESSION_1],
    ..EXAMPLE
};

const FIFTEEN_FLIGHTS: Example = Example {
    name: "refusal 13, fifteen flights",
    steps: &[
        Step::Fly(101, 15, 1),
        Step::Receive(
            SENDING,
            Reply {
                number: 16,
                ..REPLY
            },
            End::Parked,
        ),
        Step::Refuse(
            Sending {
                message: Message::Octets(OTHER_SESSION),
                ..SENDING
            },
            13,
        ),
    ],
    contexts: &[SESSION_1],
    ..EXAMPLE
};

const FULL_FLAT: Example = Example {
    name: "refusal 14, a full store",
    stores: Stores::Flat,
    steps: &[
        Step::Establish(101, 16, 1),
        Step::Refuse(SENDING, 14), // before any verdict, which would send it back
        Step::Refuse(
            Sending {
                message: Message::Octets(WITHOUT_TYPE),
                ..SENDING
            },
            14,
        ),
        Step::Receive(
            Sending {
                record: UeRecord { number: 101, ..UE },
                ..SENDING
            },
            Reply {
                number: 17,
                verdict: Verdict {
                    release: Some(7),
                    ..TO_SMF_7
                },
                ..REPLY
            },
            End::Taken,
        ),
        Step::Refuse(
            Sending {
                record: UeRecord { number: 101, ..UE },
                message: Message::Octets(OTHER_SESSION),
                ..SENDING
            },
            14,
        ),
        Step::Release(PduSession { ue: 102, id: 1 }, None),
        Step::Receive(
            SENDING,
            Reply {
                number: 18,
                ..REPLY
            },
            End::Taken,
        ),
    ],
    contexts: &[SESSION_1],
    ..EXAMPLE
};

const FULL_GRID: Example = Example {
    name: "refusal 14, a full store",
    stores: Stores::Grid,
    steps: &[
        Step::Establish(101, 32, 1),
        Step::Refuse(SENDING, 14),
        Step::Refuse(
            Sending {
                message: Message::Octets(WITHOUT_TYPE),
                ..SENDING
            },
            14,
        ),
        Step::Receive(
            Sending {
                record: UeRecord { number: 101, ..UE },
                ..SENDING
            },
            Reply {
                number: 33,
                verdict: Verdict {
                    release: Some(7),
                    ..TO_SMF_7
                },
                ..REPLY
            },
            End::Taken,
        ), // a UE that has a row has room
        Step::Receive(
            Sending {
                record: UeRecord { number: 101, ..UE },
                message: Message::Octets(OTHER_SESSION),
                ..SENDING
            },
            Reply {
                number: 34,
                ..REPLY
            },
            End::Taken,
        ),
        Step::Release(PduSession { ue: 102, id: 1 }, None),
        Step::Receive(
            SENDING,
            Reply {
                number: 35,
                ..REPLY
            },
            End::Taken,
        ),
    ],
    contexts: &[SESSION_1],
    ..EXAMPLE
};

const ROOM_LEFT_FLAT: Example = Example {
    name: "refusal 14, room for one",
    stores: Stores::Flat,
    steps: &[
        Step::Establish(101, 15, 1),
        Step::Receive(
            SENDING,
            Reply {
                number: 16,
                ..REPLY
            },
            End::Taken,
        ),
        Step::Refuse(
            Sending {
                message: Message::Octets(OTHER_SESSION),
                ..SENDING
            },
            14,
        ),
    ],
    contexts: &[SESSION_1],
    ..EXAMPLE
};

const ROOM_LEFT_GRID: Example = Example {
    name: "refusal 14, room for one",
    stores: Stores::Grid,
    steps: &[
        Step::Establish(101, 31, 1),
        Step::Receive(
            SENDING,
            Reply {
                number: 32,
                ..REPLY
            },
            End::Taken,
        ),
        Step::Refuse(
            Sending {
                record: UeRecord { number: 6, ..UE },
                ..SENDING
            },
            14,
        ),
    ],
    contexts: &[SESSION_1],
    ..EXAMPLE
};

const LAST_NUMBER: Example = Example {
    name: "refusal 15",
    first: 4_294_967_295,
    steps: &[
        Step::Receive(
            SENDING,
            Reply {
                number: 4_294_967_295,
                ..REPLY
            },
            End::Taken,
        ),
        Step::Refuse(SENDING, 15),
        Step::Refuse(
            Sending {
                message: Message::Octets(OTHER_SESSION),
                ..SENDING
            },
            15,
        ),
    ],
    contexts: &[SESSION_1],
    ..EXAMPLE
};

const TWO_NUMBERS: Example = Example {
    name: "refusal 15, two numbers",
    first: 4_294_967_294,
    steps: &[
        Step::Receive(
            SENDING,
            Reply {
                number: 4_294_967_294,
                ..REPLY
            },
            End::Taken,
        ),
        Step::Receive(
            Sending {
                message: Message::Octets(OTHER_SESSION),
                ..SENDING
            },
            Reply {
                number: 4_294_967_295,
                ..REPLY
            },
            End::Parked,
        ),
        Step::Refuse(SENDING, 15),
        Step::Pick(4_294_967_295, End::Taken),
    ],
    contexts: &[SESSION_1, SESSION_2],
    ..EXAMPLE
};

// Each has the faults of those behind it as well.
const ORDER: Example = Example {
    name: "order of checks",
    stores: Stores::Flat,
    first: 4_294_967_280,
    steps: &[
        Step::Fly(101, 16, 4_294_967_280),
        Step::Refuse(
            Sending {
                record: UeRecord {
                    session_limit: 16,
                    ..UE
                },
                message: Message::Octets(b"\x7E\x00\x67\x01\x00\x01"),
                pool: 0,
                output: 0,
                ..SENDING
            },
            1,
        ),
        Step::Refuse(
            Sending {
                message: Message::Octets(b"\x7E\x00\x67\x01\x00\x01"),
                pool: 0,
                output: 0,
                ..SENDING
            },
            2,
        ),
        Step::Refuse(
            Sending {
                message: Message::Octets(b"\x7E\x00\x67\x01\x00\x01"),
                output: 0,
                ..SENDING
            },
            3,
        ),
        Step::Refuse(
            Sending {
                record: UeRecord { number: 101, ..UE },
                message: Message::Octets(b"\x7E\x00\x67\x01\x00\x04\x2E\x01\x01\xC1\x12\x01\x86"),
                output: 0,
                ..SENDING
            },
            10,
        ),
        Step::Refuse(
            Sending {
                record: UeRecord { number: 101, ..UE },
                output: 16,
                ..SENDING
            },
            11,
        ),
        Step::Refuse(
            Sending {
                record: UeRecord { number: 101, ..UE },
                ..SENDING
            },
            12,
        ),
        Step::Refuse(SENDING, 13),
        Step::Pick(4_294_967_295, End::Taken),
        Step::Refuse(SENDING, 14),
        Step::Refuse(
            Sending {
                record: UeRecord { number: 116, ..UE },
                ..SENDING
            },
            15,
        ),
    ],
    contexts: &[],
    ..EXAMPLE
};

// Those of the checks that come before the reading of the message, and of those behind it.
pub(crate) const REFUSED_UNREAD: [Group; 2] = [
    Group {
        line: "refusal 1: session limit 16, and ten other records out of bounds; not seven at the bounds",
        examples: &[RECORDS],
    },
    Group {
        line: "refusal 2: a pool of 32,767 octets in receive, payload and failed; not one of 32,768",
        examples: &[POOLS],
    },
];

pub(crate) const REFUSED_READ: [Group; 6] = [
    Group {
        line: "refusal 11: an output of 16 octets in receive and failed; not one of 17, and for the longest payload 2,060 and 2,061",
        examples: &[OUTPUTS],
    },
    Group {
        line: "refusal 12: a session that has a payload in flight; not another session or UE, nor once that has ended",
        examples: &[PAIRS],
    },
    Group {
        line: "refusal 13: sixteen flights; not fifteen",
        examples: &[FLIGHTS, FIFTEEN_FLIGHTS],
    },
    Group {
        line: "refusal 14: a new session at a full store; not one that has a context, nor while there is room",
        examples: &[FULL_FLAT, FULL_GRID, ROOM_LEFT_FLAT, ROOM_LEFT_GRID],
    },
    Group {
        line: "refusal 15: a message past number 4,294,967,295; not the one that gets it",
        examples: &[LAST_NUMBER, TWO_NUMBERS],
    },
    Group {
        line: "order of checks: where several refuse, the first one answers",
        examples: &[ORDER],
    },
];
