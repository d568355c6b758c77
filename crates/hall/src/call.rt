// What a command asks of the router.
ghost use Rattle.std.specs.Prelude.{◌≡◌};
ghost use Rattle.hall.specs.Calls.{called, ue_named};
ghost use Rattle.hall.specs.Replies.{call_verb};

use crate::verb::Verb;
use codes::UeNumber;
use hosts::Lengths;
use stores::PduSession;

// A message of a UE, and the buffers for it.
#[derive(Drop)]
pub(crate) struct Reception {
    pub(crate) ue: UeNumber,
    pub(crate) message: Vec<u8>,
    pub(crate) lengths: Lengths,
}

// The numbers are those of tickets.
#[derive(Drop)]
pub(crate) enum Call {
    Receive(Reception),
    /// With a pool of this length.
    Payload(u32, usize),
    Taken(u32),
    Failed(u32, Lengths),
    Park(u32),
    Pick(u32),
    Released(PduSession),
    Find(PduSession),
}

impl Call {
    // The verb of the command that asks for it.
    pub(crate) fn verb(&self) -> Verb
        ensures { result ≡ call_verb (called self.now) }
    {
        match self {
            Call::Receive(_) => Verb::Receive,
            Call::Payload(_, _) => Verb::Payload,
            Call::Taken(_) => Verb::Taken,
            Call::Failed(_, _) => Verb::Failed,
            Call::Park(_) => Verb::Park,
            Call::Pick(_) => Verb::Pick,
            Call::Released(_) => Verb::Released,
            Call::Find(_) => Verb::Find,
        }
    }

    // The UE that it names, if it names one.
    pub(crate) fn ue(&self) -> Option<UeNumber>
        ensures { result ≡ ue_named (called self.now) }
    {
        match self {
            Call::Receive(reception) => Some(reception.ue),
            Call::Released(session) | Call::Find(session) => Some(session.ue),
            _ => None,
        }
    }
}
