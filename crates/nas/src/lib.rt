// NAS TRANSPORT messages: reads an uplink message, and writes the message that returns a payload.
#![tactic(auto)]

mod element;
mod returned;
mod sample;
mod uplink;

pub use codes::{Cause, DnnNumber, Refusal, RequestType, SessionId, SetupError, SliceCode};
pub use names::{Book, same_name};
pub use returned::{RETURN_HEADER, RETURN_OVERHEAD, write_return};
pub use sample::sample_message;
pub use uplink::{MAX_PAYLOAD, Uplink, read_uplink};
