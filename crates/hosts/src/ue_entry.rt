// What a host has on record of a UE.
use codes::UeNumber;
use records::{KnownLine, SubscriptionLine, UeRecord};
use std::alloc::{AllocError, Global};

/// A UE on record, with as many lines as are given: a router refuses a record that has too many.
#[derive(Drop)]
pub struct UeEntry {
    high_priority: bool,
    awaits_registration: bool,
    session_limit: u8,
    subscriptions: Vec<SubscriptionLine>,
    known: Vec<KnownLine>,
}

impl UeEntry {
    /// A UE with no lines, and with this session limit.
    pub fn new(
        heap: Global,
        high_priority: bool,
        awaits_registration: bool,
        session_limit: u8,
    ) -> UeEntry {
        UeEntry {
            high_priority,
            awaits_registration,
            session_limit,
            subscriptions: Vec::new(heap),
            known: Vec::new(heap),
        }
    }

    /// One more subscription line, behind those that there are.
    pub fn subscribe(&mut self, line: SubscriptionLine) -> Result<(), AllocError> {
        Ok(self.subscriptions.push(line)?)
    }

    /// One more known line, behind those that there are.
    pub fn know(&mut self, line: KnownLine) -> Result<(), AllocError> {
        Ok(self.known.push(line)?)
    }

    /// The record of the UE that has this number.
    pub fn record(&self, number: UeNumber) -> UeRecord<'_> {
        UeRecord {
            number,
            high_priority: self.high_priority,
            awaits_registration: self.awaits_registration,
            session_limit: self.session_limit,
            subscriptions: self.subscriptions.as_slice(),
            known: self.known.as_slice(),
        }
    }
}
