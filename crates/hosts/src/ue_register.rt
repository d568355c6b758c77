// The UEs that a host has on record, by their numbers.
use crate::ue_entry::UeEntry;
use codes::UeNumber;
use records::UeRecord;
use std::alloc::{AllocError, Global};
use std::collections::BTreeMap;

/// UE entries, at most one for each number.
#[derive(Drop)]
pub struct UeRegister {
    entries: BTreeMap<UeNumber, UeEntry>,
}

impl UeRegister {
    /// No UEs.
    pub fn new(heap: Global) -> UeRegister {
        UeRegister {
            entries: BTreeMap::new(heap),
        }
    }

    /// The UE has this entry, in the place of the one that it had.
    pub fn put(&mut self, ue: UeNumber, entry: UeEntry) -> Result<(), AllocError> {
        self.entries.insert(ue, entry)?;
        Ok(())
    }

    /// Whether the UE is on record.
    pub fn has(&self, ue: UeNumber) -> bool {
        self.entries.contains_key(&ue)
    }

    /// The entry of the UE, to be changed, if it is on record.
    pub fn entry_mut(&mut self, ue: UeNumber) -> Option<&mut UeEntry> {
        self.entries.get_mut(&ue)
    }

    /// The record of the UE, if it is on record.
    pub fn record(&self, ue: UeNumber) -> Option<UeRecord<'_>> {
        Some(self.entries.get(&ue)?.record(ue))
    }
}
