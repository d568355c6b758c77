// The numbers and codes that all crates share: refusals, causes, request types, and the numbers of
// things.
#![tactic(auto)]

mod cause;
mod handed_back;
mod ids;
mod refusal;
mod request_type;
mod session;
mod setup_error;
mod slice_dnn;

pub use cause::Cause;
pub use handed_back::HandedBack;
pub use ids::{DnnNumber, SessionId, SliceCode, SmfId, UeNumber};
pub use refusal::Refusal;
pub use request_type::RequestType;
pub use session::is_session;
pub use setup_error::SetupError;
pub use slice_dnn::SliceDnn;
