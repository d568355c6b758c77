// Examples: what a router is opened with, what is asked of it, and what it has to answer.
use crate::message::Message;
use codes::{RequestType, SessionId, UeNumber};
use control::ControlNumbers;
use directories::ServiceLine;
use records::{Configuration, UeRecord};
use stores::{Context, PduSession};
use verdicts::Verdict;

// What a receive is handed, besides control lines and a directory.
#[derive(Clone, Copy)]
pub(crate) struct Sending {
    pub(crate) record: UeRecord<'static>,
    pub(crate) message: Message,
    // How long the buffers are that are lent.
    pub(crate) pool: usize,
    pub(crate) output: usize,
}

// What is answered to a message that is accepted.
#[derive(Clone, Copy)]
pub(crate) struct Reply {
    pub(crate) number: u32,
    pub(crate) old_session: Option<SessionId>,
    pub(crate) request_type: Option<RequestType>,
    pub(crate) verdict: Verdict,
    // The payload that is handed out where it is forwarded, else what goes back to the UE.
    pub(crate) octets: &'static [u8],
}

// What becomes of a ticket.
#[derive(Clone, Copy)]
pub(crate) enum End {
    Taken,
    Failed(Failing),
    /// It is given for its number.
    Parked,
}

// The SMF did not take the payload. Where that is refused, the ticket is parked.
#[derive(Clone, Copy)]
pub(crate) struct Failing {
    pub(crate) pool: usize,
    pub(crate) output: usize,
    // The octets that go back, or the number of the refusal.
    pub(crate) reply: Result<&'static [u8], u8>,
}

// Something that is asked of a router, and what it has to answer. A refusal is told by its number.
#[derive(Clone, Copy)]
pub(crate) enum Step {
    Receive(Sending, Reply, End),
    Refuse(Sending, u8),
    /// Each of these messages of UE 5 is refused with the number.
    RefuseAll(&'static [Message], u8),
    /// Each of them is accepted, the first under this number.
    AcceptAll(&'static [Message], u32),
    /// So many UEs, from this one on, each have the payload of session 1 taken, the first under this number.
    Establish(UeNumber, u32, u32),
    /// The same, but their tickets are parked.
    Fly(UeNumber, u32, u32),
    /// The ticket of a parked number.
    Pick(u32, End),
    RefusePick(u32),
    /// The payload of a parked number, with a pool of this length.
    Payload(u32, usize, Result<&'static [u8], u8>),
    Release(PduSession, Option<u8>),
    Find(PduSession, Option<Context>),
}

// Which directory there is.
#[derive(Clone, Copy)]
pub(crate) enum Services {
    List(&'static [ServiceLine]),
    Turning(&'static [ServiceLine]),
    /// A turning one that is closed.
    Closed(&'static [ServiceLine]),
}

#[derive(Clone, Copy, PartialEq, Eq)]
pub(crate) enum Stores {
    Both,
    /// The flat store of 16 rows alone.
    Flat,
    Grid,
}

#[derive(Clone, Copy)]
pub(crate) struct Example {
    pub(crate) name: &'static str,
    pub(crate) stores: Stores,
    pub(crate) configuration: Configuration,
    pub(crate) first: u32,
    pub(crate) services: Services,
    // Control lines with their back-off octets.
    pub(crate) controls: &'static [(ControlNumbers, u8)],
    pub(crate) steps: &'static [Step],
    // The contexts of UE 5 in the end.
    pub(crate) contexts: &'static [Context],
}

// Examples that one line is printed for.
#[derive(Clone, Copy)]
pub(crate) struct Group {
    pub(crate) line: &'static str,
    pub(crate) examples: &'static [Example],
}
