// What a host has of a router's answer to a message, once it holds the ticket.
use codes::{RequestType, SessionId};
use verdicts::Verdict;

/// An answer to a message whose ticket, if it has one, its host holds.
#[derive(Drop)]
pub struct Reply {
    /// The number of the payload.
    pub number: u32,
    pub old_session: Option<SessionId>,
    pub request_type: Option<RequestType>,
    pub verdict: Verdict,
    /// The message that goes back to the UE; none of its octets where the payload is forwarded.
    pub returned: Vec<u8>,
}
