// The words of a scenario's lines, read: numbers, octets and slice codes.
#![tactic(auto)]

mod number;
mod octets;
mod slice;
mod words;

pub use number::parse_number;
pub use octets::{parse_octet, parse_octets};
pub use printing::{Octets, OrAbsent, Slice};
pub use slice::parse_slice;
pub use words::{begins_with, split_words};
