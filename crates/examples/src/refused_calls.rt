// What pick and released refuse, and what they carry out beside that.
use crate::example::{End, Example, Group, Reply, Step};
use crate::small_core::*;
use router::POOL_LENGTH;
use stores::PduSession;
use verdicts::Verdict;

const PAIR: PduSession = PduSession { ue: 5, id: 1 };

const NUMBERS: Example = Example {
    name: "refusal 17",
    steps: &[
        Step::RefusePick(0),
        Step::RefusePick(1),
        Step::Receive(SENDING, REPLY, End::Parked),
        Step::RefusePick(2),
        Step::Payload(1, POOL_LENGTH, Ok(PAYLOAD)),
        Step::Pick(1, End::Parked),
        Step::Pick(1, End::Taken),
        Step::RefusePick(1),
        Step::Receive(
            SENDING,
            Reply {
                number: 2,
                verdict: Verdict {
                    release: Some(7),
                    ..TO_SMF_7
                },
                ..REPLY
            },
            FAILED,
        ),
        Step::RefusePick(2),
    ],
    contexts: &[],
    ..EXAMPLE
};

const RELEASES: Example = Example {
    name: "refusal 18",
    steps: &[
        Step::Release(PAIR, Some(18)),
        Step::Receive(SENDING, REPLY, End::Taken),
        Step::Find(PAIR, Some(SESSION_1)),
        Step::Release(PduSession { id: 2, ..PAIR }, Some(18)),
        Step::Release(PduSession { ue: 6, ..PAIR }, Some(18)),
        Step::Release(PAIR, None),
        Step::Find(PAIR, None),
        Step::Release(PAIR, Some(18)),
    ],
    contexts: &[],
    ..EXAMPLE
};

// A flight goes on when its context is released, and the context that comes later is not its own.
const RELEASED_IN_FLIGHT: Example = Example {
    name: "a release in flight",
    steps: &[
        Step::Receive(SENDING, REPLY, End::Parked),
        Step::Release(PAIR, None),
        Step::Pick(1, FAILED),
        Step::Receive(SENDING, Reply { number: 2, ..REPLY }, End::Taken),
    ],
    contexts: &[SESSION_1],
    ..EXAMPLE
};

pub(crate) const REFUSED_CALLS: [Group; 2] = [
    Group {
        line: "refusal 17: numbers that are not parked, before, between and after; not the one that is",
        examples: &[NUMBERS],
    },
    Group {
        line: "refusal 18: a release where no context is; not where one is",
        examples: &[RELEASES, RELEASED_IN_FLIGHT],
    },
];
