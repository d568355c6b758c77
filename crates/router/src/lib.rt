// The router of NAS payloads: which SMF each goes to, and what becomes of it.
#![tactic(auto)]

mod admission;
mod answer;
mod pool;
mod reading;
mod returning;
mod router;
mod settling;
mod ticket;
mod unopened;

pub use answer::{Answer, Delivery};
pub use pool::POOL_LENGTH;
pub use records::{Configuration, KnownLine, SubscriptionLine, UeRecord};
pub use router::Router;
pub use ticket::Ticket;
pub use unopened::Unopened;
pub use verdicts::{Decision, Verdict};
