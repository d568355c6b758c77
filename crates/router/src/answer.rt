// What a router answers to a message.
use crate::ticket::Ticket;
use codes::{RequestType, SessionId};
use verdicts::Verdict;

/// Where the payload of an accepted message is.
#[derive(Debug)]
pub enum Delivery {
    /// In the pool, for the SMF that the verdict names. The ticket has to be given back.
    Forwarded(Ticket),
    /// In the message that goes back to the UE, which begins the output and has so many octets.
    Returned { length: usize },
}

/// What a router answers to a message that it accepts.
#[derive(Debug)]
pub struct Answer {
    /// The number of the payload, and of its ticket.
    pub number: u32,
    pub old_session: Option<SessionId>,
    pub request_type: Option<RequestType>,
    /// The SMF or the cause, the slice and the DNN used, and the release that is ordered.
    pub verdict: Verdict,
    pub delivery: Delivery,
}
