// What a command puts on record of a UE.
ghost use Rattle.std.specs.Prelude.{◌≡◌};
ghost use Rattle.hall.specs.Replies.{note_verb};

use crate::not_done::NotDone;
use crate::verb::Verb;
use codes::UeNumber;
use hosts::{UeEntry, UeRegister};
use records::{KnownLine, SubscriptionLine};
use std::alloc::Global;

// What a UE is put on record with, before it has any lines.
#[derive(Clone, Copy)]
pub(crate) struct UeMarks {
    pub(crate) high_priority: bool,
    pub(crate) awaits_registration: bool,
}

#[derive(Clone, Copy)]
pub(crate) enum UeNote {
    /// A new record, with this session limit.
    Begin(UeNumber, u8, UeMarks),
    /// One more subscription line.
    Subscribe(UeNumber, SubscriptionLine),
    /// One more known line.
    Know(UeNumber, KnownLine),
}

impl UeNote {
    // The verb of the command that asks for it.
    pub(crate) fn verb(&self) -> Verb
        ensures { result ≡ note_verb self.now }
    {
        match self {
            UeNote::Begin(_, _, _) => Verb::Ue,
            UeNote::Subscribe(_, _) => Verb::Subscribe,
            UeNote::Know(_, _) => Verb::Know,
        }
    }

    // Puts it on record. A line needs a UE that is on record.
    pub(crate) fn enter(&self, heap: Global, ues: &mut UeRegister) -> Result<(), NotDone> {
        match *self {
            UeNote::Begin(ue, limit, marks) => {
                let entry = UeEntry::new(
                    heap,
                    marks.high_priority,
                    marks.awaits_registration,
                    limit,
                );
                ues.put(ue, entry)?;
            }
            UeNote::Subscribe(ue, line) => {
                let entry = ues.entry_mut(ue).ok_or(NotDone::Misplaced)?;
                entry.subscribe(line)?;
            }
            UeNote::Know(ue, line) => {
                let entry = ues.entry_mut(ue).ok_or(NotDone::Misplaced)?;
                entry.know(line)?;
            }
        }
        Ok(())
    }
}
