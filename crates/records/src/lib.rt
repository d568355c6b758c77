// What a host tells of a UE and of its core: UE records with their lines, and the configuration.
#![tactic(auto)]

mod configuration;
mod known_line;
mod numbering;
mod subscription_line;
mod ue_record;

pub use configuration::Configuration;
pub use known_line::KnownLine;
pub use subscription_line::SubscriptionLine;
pub use ue_record::UeRecord;
