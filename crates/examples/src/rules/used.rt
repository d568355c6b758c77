// Which slice and DNN are used.
use super::OTHER_SLICE;
use crate::example::{End, Example, Group, Reply, Sending, Services, Step};
use crate::message::Message;
use crate::small_core::{EXAMPLE, LINE, REPLY, SENDING, SESSION_1, SLICE, TO_SMF_7, UE};
use codes::{RequestType, SliceDnn};
use directories::ServiceLine;
use records::{SubscriptionLine, UeRecord};
use verdicts::{Decision, Verdict};

// The first default-slice line has the other slice, and the first default-DNN line of that slice DNN 2.
const WITH_DEFAULTS: UeRecord<'static> = UeRecord {
    subscriptions: &[
        SubscriptionLine {
            slice: SLICE,
            dnn: 2,
            default_slice: false,
            default_dnn: true,
            allowed: false,
        },
        SubscriptionLine {
            slice: OTHER_SLICE,
            dnn: 1,
            default_slice: true,
            default_dnn: false,
            allowed: false,
        },
        SubscriptionLine {
            slice: OTHER_SLICE,
            dnn: 2,
            default_slice: true,
            default_dnn: true,
            allowed: false,
        },
    ],
    ..UE
};

const DEFAULTS: Example = Example {
    name: "slice and DNN",
    services: Services::List(&[
        LINE,
        ServiceLine {
            slice: OTHER_SLICE,
            dnn: 2,
            smf: 3,
        },
    ]),
    steps: &[
        Step::Receive(
            Sending {
                record: WITH_DEFAULTS,
                ..SENDING
            },
            Reply {
                verdict: Verdict {
                    used: SliceDnn {
                        slice: OTHER_SLICE,
                        dnn: 2,
                    },
                    decision: Decision::Establish {
                        smf: 3,
                        emergency: false,
                    },
                    ..TO_SMF_7
                },
                ..REPLY
            },
            End::Taken,
        ), // as the context has them, but for an initial request
        Step::Receive(
            Sending {
                message: Message::Octets(b"\x7E\x00\x67\x01\x00\x04\x2E\x01\x01\xC1\x12\x01"),
                ..SENDING
            },
            Reply {
                number: 2,
                request_type: None,
                verdict: Verdict {
                    used: SliceDnn {
                        slice: OTHER_SLICE,
                        dnn: 2,
                    },
                    decision: Decision::Forward(3),
                    ..TO_SMF_7
                },
                ..REPLY
            },
            End::Taken,
        ),
        Step::Receive(
            SENDING,
            Reply {
                number: 3,
                verdict: Verdict {
                    release: Some(3),
                    ..TO_SMF_7
                },
                ..REPLY
            },
            End::Taken,
        ), // as the message names them
        Step::Receive(
            Sending {
                message: Message::Octets(
                    b"\x7E\x00\x67\x01\x00\x04\x2E\x01\x01\xC1\x12\x01\x85\x22\x04\x02\x00\x00\x01\x25\x04\x03\x73\x6F\x73",
                ),
                ..SENDING
            },
            Reply {
                number: 4,
                request_type: Some(RequestType::Modification),
                verdict: Verdict {
                    used: SliceDnn {
                        slice: OTHER_SLICE,
                        dnn: 2,
                    },
                    decision: Decision::Forward(7),
                    ..TO_SMF_7
                },
                ..REPLY
            },
            End::Taken,
        ),
        Step::Receive(
            Sending {
                message: Message::Octets(
                    b"\x7E\x00\x67\x01\x00\x04\x2E\x01\x01\xC1\x12\x01\x85\x22\x01\x02",
                ),
                ..SENDING
            },
            Reply {
                number: 5,
                request_type: Some(RequestType::Modification),
                verdict: Verdict {
                    used: SliceDnn {
                        slice: 0x02_FF_FF_FF,
                        dnn: 1,
                    },
                    decision: Decision::Forward(7),
                    ..TO_SMF_7
                },
                ..REPLY
            },
            End::Taken,
        ),
    ],
    contexts: &[SESSION_1],
    ..EXAMPLE
};

pub(crate) const USED: [Group; 1] = [Group {
    line: "slice and DNN: as the message names them, else as the context has them, else by the default lines, else as configured",
    examples: &[DEFAULTS],
}];
