// Payloads in flight: those that were forwarded to an SMF, and that it has neither taken nor failed
// to take.
#![tactic(auto)]

mod flight;
mod flights;

pub use flight::{Flight, Mark};
pub use flights::{Flights, SLOTS};
