// Stores of the routing contexts of PDU sessions: what a store means, and what holds of every one.
#![tactic(auto)]

mod context;
mod laws;
mod no_room;
mod pdu_session;
mod store;

pub use context::Context;
pub use no_room::NoRoom;
pub use pdu_session::PduSession;
pub use store::Store;
