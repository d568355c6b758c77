// What a message asks for, what a receive answers, and the account that is kept of all calls.
#![tactic(auto)]

mod ten_cases;
mod uplink_inquiry;

pub use records::{Configuration, KnownLine, SubscriptionLine, UeRecord};
pub use uplink_inquiry::inquiry;
pub use verdicts::{Decision, Inquiry, Verdict, judge};
