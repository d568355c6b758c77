// What a host has of a router: the router itself, the tickets that it holds, the pool that it lends, and
// its UE records.
#![tactic(auto)]

mod host;
mod lengths;
mod reply;
mod tickets;
mod ue_entry;
mod ue_register;

pub use host::Host;
pub use lengths::Lengths;
pub use reply::Reply;
pub use ue_entry::UeEntry;
pub use ue_register::UeRegister;
