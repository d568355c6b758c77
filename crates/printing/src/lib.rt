// Values as a scenario's text has them: octets, slice codes, and what may be absent.
#![tactic(auto)]

mod absent;
mod octets;
mod slice;

pub use absent::OrAbsent;
pub use octets::Octets;
pub use slice::Slice;
