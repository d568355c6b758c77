// What a receive refuses of the octets of a message, and the messages beside that which it accepts. They
// are numbered from 1 by those that are accepted alone.
use crate::example::{Example, Group, Step};
use crate::message::Message;
use crate::small_core::*;

const EXTENTS: Example = Example {
    name: "refusal 3",
    steps: &[
        Step::RefuseAll(
            &[
                Message::Octets(b"\x7E\x00\x67\x01\x00\x01"),
                // the payload
                Message::Octets(b"\x7E\x00\x67\x01\x00\x08\x2E\x01\x01\xC1\x12\x01\x81"),
                // a session
                Message::Octets(b"\x7E\x00\x67\x01\x00\x04\x2E\x01\x01\xC1\x12"),
                // a DNN, with and without its length
                Message::Octets(
                    b"\x7E\x00\x67\x01\x00\x04\x2E\x01\x01\xC1\x12\x01\x25\x05\x04\x6C\x6F\x6F",
                ),
                Message::Octets(b"\x7E\x00\x67\x01\x00\x04\x2E\x01\x01\xC1\x12\x01\x25"),
                // an unnamed element, with and without its length
                Message::Octets(
                    b"\x7E\x00\x67\x01\x00\x04\x2E\x01\x01\xC1\x12\x01\x7A\x00\x02\x01",
                ),
                Message::Octets(b"\x7E\x00\x67\x01\x00\x04\x2E\x01\x01\xC1\x12\x01\x7A\x00"),
            ],
            3,
        ),
        // Seven octets are enough, and the payload may end with the message: it is the session that they
        // lack.
        Step::RefuseAll(
            &[
                Message::Octets(b"\x7E\x00\x67\x01\x00\x01\x2E"),
                Message::Octets(b"\x7E\x00\x67\x01\x00\x07\x2E\x01\x01\xC1\x12\x01\x81"),
            ],
            9,
        ),
        Step::AcceptAll(
            &[
                Message::Octets(b"\x7E\x00\x67\x01\x00\x01\x2E\x12\x01"),
                Message::Octets(WITHOUT_TYPE),
                Message::Octets(
                    b"\x7E\x00\x67\x01\x00\x04\x2E\x01\x01\xC1\x12\x01\x25\x05\x04\x6C\x6F\x6F\x6D",
                ),
                Message::Octets(
                    b"\x7E\x00\x67\x01\x00\x04\x2E\x01\x01\xC1\x12\x01\x7A\x00\x02\x01\x02",
                ),
                Message::Octets(b"\x7E\x00\x67\x01\x00\x04\x2E\x01\x01\xC1\x12\x01\x7A\x00\x00"),
            ],
            1,
        ),
    ],
    contexts: &[],
    ..EXAMPLE
};

const HEADERS: Example = Example {
    name: "refusal 4",
    steps: &[
        Step::RefuseAll(
            &[
                Message::Octets(b"\x7D\x00\x67\x01\x00\x04\x2E\x01\x01\xC1\x12\x01\x81"),
                Message::Octets(b"\x7E\x01\x67\x01\x00\x04\x2E\x01\x01\xC1\x12\x01\x81"),
                Message::Octets(b"\x7E\x00\x66\x01\x00\x04\x2E\x01\x01\xC1\x12\x01\x81"),
                Message::Octets(b"\x7E\x00\x68\x01\x00\x04\x2E\x01\x01\xC1\x12\x01\x81"),
            ],
            4,
        ),
        Step::AcceptAll(
            &[
                Message::Octets(SAMPLE),
                Message::Octets(b"\x7E\xF0\x67\x01\x00\x04\x2E\x01\x01\xC1\x12\x01\x81"),
            ],
            1,
        ),
    ],
    contexts: &[],
    ..EXAMPLE
};

const PAYLOAD_TYPES: Example = Example {
    name: "refusal 5",
    steps: &[
        Step::RefuseAll(
            &[
                Message::Octets(b"\x7E\x00\x67\x00\x00\x04\x2E\x01\x01\xC1\x12\x01\x81"),
                Message::Octets(b"\x7E\x00\x67\x02\x00\x04\x2E\x01\x01\xC1\x12\x01\x81"),
                Message::Octets(b"\x7E\x00\x67\x12\x00\x04\x2E\x01\x01\xC1\x12\x01\x81"),
            ],
            5,
        ),
        Step::AcceptAll(
            &[
                Message::Octets(SAMPLE),
                Message::Octets(b"\x7E\x00\x67\xF1\x00\x04\x2E\x01\x01\xC1\x12\x01\x81"),
            ],
            1,
        ),
    ],
    contexts: &[],
    ..EXAMPLE
};

const PAYLOAD_LENGTHS: Example = Example {
    name: "refusal 6",
    steps: &[
        Step::RefuseAll(
            &[
                Message::Octets(b"\x7E\x00\x67\x01\x00\x00\x12\x01\x81"),
                Message::Payload {
                    claimed: 2049,
                    carried: 2049,
                },
                // it runs past the end as well
                Message::Payload {
                    claimed: 2049,
                    carried: 4,
                },
            ],
            6,
        ),
        Step::AcceptAll(
            &[
                Message::Octets(b"\x7E\x00\x67\x01\x00\x01\x2E\x12\x01\x81"),
                Message::Payload {
                    claimed: 1,
                    carried: 1,
                },
                Message::Payload {
                    claimed: 2048,
                    carried: 2048,
                },
            ],
            1,
        ),
    ],
    contexts: &[],
    ..EXAMPLE
};

const ELEMENT_LENGTHS: Example = Example {
    name: "refusal 7",
    steps: &[
        Step::RefuseAll(
            &[
                Message::Element {
                    kind: 0x22,
                    length: 0,
                },
                Message::Element {
                    kind: 0x22,
                    length: 3,
                },
                Message::Element {
                    kind: 0x22,
                    length: 6,
                },
                Message::Element {
                    kind: 0x22,
                    length: 7,
                },
                Message::Element {
                    kind: 0x22,
                    length: 9,
                },
                Message::Element {
                    kind: 0x25,
                    length: 0,
                },
                Message::Element {
                    kind: 0x25,
                    length: 101,
                },
            ],
            7,
        ),
        Step::AcceptAll(
            &[
                Message::Element {
                    kind: 0x22,
                    length: 1,
                },
                Message::Element {
                    kind: 0x22,
                    length: 2,
                },
                Message::Element {
                    kind: 0x22,
                    length: 4,
                },
                Message::Element {
                    kind: 0x22,
                    length: 5,
                },
                Message::Element {
                    kind: 0x22,
                    length: 8,
                },
                Message::Element {
                    kind: 0x25,
                    length: 1,
                },
                Message::Element {
                    kind: 0x25,
                    length: 100,
                }, // a repeat is passed over by its length
                Message::Octets(
                    b"\x7E\x00\x67\x01\x00\x04\x2E\x01\x01\xC1\x12\x01\x22\x01\x01\x22\x03\x01\x01\x01",
                ),
            ],
            1,
        ),
    ],
    contexts: &[],
    ..EXAMPLE
};

const ELEMENT_KINDS: Example = Example {
    name: "refusal 8",
    steps: &[
        Step::RefuseAll(
            &[
                Message::Octets(b"\x7E\x00\x67\x01\x00\x04\x2E\x01\x01\xC1\x12\x01\x00"),
                Message::Octets(b"\x7E\x00\x67\x01\x00\x04\x2E\x01\x01\xC1\x12\x01\x0F"),
                Message::Octets(b"\x7E\x00\x67\x01\x00\x04\x2E\x01\x01\xC1\x0F\x01\x12\x01"),
            ],
            8,
        ),
        Step::AcceptAll(
            &[
                Message::Octets(b"\x7E\x00\x67\x01\x00\x04\x2E\x01\x01\xC1\x12\x01\x10\x00"),
                Message::Octets(b"\x7E\x00\x67\x01\x00\x04\x2E\x01\x01\xC1\x12\x01\x6F\x01\x0F"),
                Message::Octets(b"\x7E\x00\x67\x01\x00\x04\x2E\x01\x01\xC1\x12\x01\xFF"),
            ],
            1,
        ),
    ],
    contexts: &[],
    ..EXAMPLE
};

const SESSIONS: Example = Example {
    name: "refusal 9",
    steps: &[
        Step::RefuseAll(
            &[
                Message::Octets(b"\x7E\x00\x67\x01\x00\x04\x2E\x01\x01\xC1\x81"),
                Message::Octets(b"\x7E\x00\x67\x01\x00\x04\x2E\x01\x01\xC1\x12\x00\x81"),
                Message::Octets(b"\x7E\x00\x67\x01\x00\x04\x2E\x01\x01\xC1\x12\x10\x81"),
                Message::Octets(b"\x7E\x00\x67\x01\x00\x04\x2E\x01\x01\xC1\x12\x01\x59\x00"),
                Message::Octets(b"\x7E\x00\x67\x01\x00\x04\x2E\x01\x01\xC1\x12\x01\x59\x10"),
                Message::Octets(b"\x7E\x00\x67\x01\x00\x04\x2E\x01\x01\xC1\x12\x01\x59\x01"),
            ],
            9,
        ),
        Step::AcceptAll(
            &[
                Message::Octets(b"\x7E\x00\x67\x01\x00\x04\x2E\x01\x01\xC1\x12\x01\x81"),
                Message::Octets(b"\x7E\x00\x67\x01\x00\x04\x2E\x01\x01\xC1\x12\x0F\x81"),
                Message::Octets(b"\x7E\x00\x67\x01\x00\x04\x2E\x01\x01\xC1\x12\x01\x59\x02"),
                Message::Octets(b"\x7E\x00\x67\x01\x00\x04\x2E\x01\x01\xC1\x12\x01\x59\x0F"),
                Message::Octets(b"\x7E\x00\x67\x01\x00\x04\x2E\x01\x01\xC1\x59\x02\x12\x01\x81"),
            ],
            1,
        ),
    ],
    contexts: &[],
    ..EXAMPLE
};

const REQUEST_TYPES: Example = Example {
    name: "refusal 10",
    steps: &[
        Step::RefuseAll(
            &[
                Message::Octets(b"\x7E\x00\x67\x01\x00\x04\x2E\x01\x01\xC1\x12\x01\x86"),
                Message::Octets(b"\x7E\x00\x67\x01\x00\x04\x2E\x01\x01\xC1\x12\x01\x87"),
                Message::Octets(b"\x7E\x00\x67\x01\x00\x04\x2E\x01\x01\xC1\x12\x01\x8E"),
                Message::Octets(b"\x7E\x00\x67\x01\x00\x04\x2E\x01\x01\xC1\x12\x01\x8F"),
            ],
            10,
        ),
        Step::AcceptAll(
            &[
                Message::Octets(b"\x7E\x00\x67\x01\x00\x04\x2E\x01\x01\xC1\x12\x01\x85"),
                Message::Octets(b"\x7E\x00\x67\x01\x00\x04\x2E\x01\x01\xC1\x12\x01\x80"),
                Message::Octets(b"\x7E\x00\x67\x01\x00\x04\x2E\x01\x01\xC1\x12\x01\x88"),
                Message::Octets(b"\x7E\x00\x67\x01\x00\x04\x2E\x01\x01\xC1\x12\x01\x8D"),
            ],
            1,
        ),
    ],
    contexts: &[],
    ..EXAMPLE
};

// Of several faults the first in the order of the checks decides, and among elements the leftmost.
const FAULT_ORDER: Example = Example {
    name: "order of faults",
    steps: &[
        Step::RefuseAll(
            &[ // under seven octets, and no header
                Message::Octets(b"\x7D\x01\x66\x02\x00\x00"),
            ],
            3,
        ),
        Step::RefuseAll(
            &[ // no header, and a payload of another type and no length
                Message::Octets(b"\x7D\x00\x67\x02\x00\x00\x12\x01\x81"),
            ],
            4,
        ),
        Step::RefuseAll(
            &[ // another type, and no length
                Message::Octets(b"\x7E\x00\x67\x02\x00\x00\x12\x01\x81"),
            ],
            5,
        ),
        Step::RefuseAll(
            &[ // no length, and an element of no kind
                Message::Octets(b"\x7E\x00\x67\x01\x00\x00\x0F\x12\x01"),
            ],
            6,
        ),
        Step::RefuseAll(
            &[ // one element that runs past the end and cannot be so long
                // the overrun comes first, and no session does
                Message::Octets(b"\x7E\x00\x67\x01\x00\x04\x2E\x01\x01\xC1\x12\x01\x22\x03\x01"),
                Message::Octets(b"\x7E\x00\x67\x01\x00\x04\x2E\x01\x01\xC1\x25\x05\x04"),
            ],
            3,
        ),
        Step::RefuseAll(
            &[ // a slice of a bad length, before an element of no kind
                Message::Octets(
                    b"\x7E\x00\x67\x01\x00\x04\x2E\x01\x01\xC1\x12\x01\x22\x03\x01\x01\x01\x0F",
                ), // and before an overrun
                Message::Octets(
                    b"\x7E\x00\x67\x01\x00\x04\x2E\x01\x01\xC1\x12\x01\x25\x00\x22\x04\x01",
                ),
            ],
            7,
        ),
        Step::RefuseAll(
            &[ // an element of no kind, before a slice of a bad length
                Message::Octets(
                    b"\x7E\x00\x67\x01\x00\x04\x2E\x01\x01\xC1\x12\x01\x0F\x22\x03\x01\x01\x01",
                ), // and before an overrun
                Message::Octets(
                    b"\x7E\x00\x67\x01\x00\x04\x2E\x01\x01\xC1\x12\x01\x0F\x25\x05\x04",
                ),
            ],
            8,
        ),
        Step::RefuseAll(
            &[ // no session, and an unknown request type
                Message::Octets(b"\x7E\x00\x67\x01\x00\x04\x2E\x01\x01\xC1\x86"),
            ],
            9,
        ),
        Step::AcceptAll(&[Message::Octets(SAMPLE)], 1),
    ],
    contexts: &[],
    ..EXAMPLE
};

pub(crate) const REFUSED_MESSAGES: [Group; 9] = [
    Group {
        line: "refusal 3: six octets, or a payload or an element past the end; not nine octets, nor where they end with it",
        examples: &[EXTENTS],
    },
    Group {
        line: "refusal 4: one of the first three octets is wrong; not the upper half of the second",
        examples: &[HEADERS],
    },
    Group {
        line: "refusal 5: payload types 0 and 2; not 1",
        examples: &[PAYLOAD_TYPES],
    },
    Group {
        line: "refusal 6: payloads of 0 and of 2,049 octets; not of 1 and of 2,048",
        examples: &[PAYLOAD_LENGTHS],
    },
    Group {
        line: "refusal 7: an S-NSSAI of 0, 3, 6, 7 or 9 octets, a DNN of 0 or 101; not 1, 2, 4, 5 or 8, 1 or 100",
        examples: &[ELEMENT_LENGTHS],
    },
    Group {
        line: "refusal 8: elements 00 and 0F; not 10, 6F and FF",
        examples: &[ELEMENT_KINDS],
    },
    Group {
        line: "refusal 9: no session, sessions 0 and 16, old sessions 0, 16 and the session itself; not 1, 2 and 15",
        examples: &[SESSIONS],
    },
    Group {
        line: "refusal 10: request types 6 and 7; not 5 and 0",
        examples: &[REQUEST_TYPES],
    },
    Group {
        line: "order of faults in a message: the first check decides, and among elements the leftmost",
        examples: &[FAULT_ORDER],
    },
];
