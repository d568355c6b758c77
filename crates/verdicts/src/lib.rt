// Verdicts: whether a payload is forwarded, and to which SMF, or returned, and why.
#![tactic(auto)]

mod decision;
mod inquiry;
mod judgement;
mod outcome;
mod rules;
mod ruling;
mod verdict;

pub use decision::Decision;
pub use inquiry::Inquiry;
pub use judgement::judge;
pub use outcome::Outcome;
pub use ruling::Ruling;
pub use verdict::Verdict;
