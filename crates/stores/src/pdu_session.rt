// A PDU session of a UE: the numbers that a context is found by.
ghost use Rattle.std.specs.Prelude.{◌≡◌};
ghost use Rattle.stores.specs.Contexts.{pair_fits};

use codes::{SessionId, UeNumber, is_session};

/// A PDU session of a UE: UE number and PDU session ID (TS 24.501, 9.4), each in bounds or not.
#[derive(Clone, Copy, Debug, PartialEq, Eq)]
pub struct PduSession {
    pub ue: UeNumber,
    pub id: SessionId,
}

impl PduSession {
    /// Whether there can be a context of it: a UE number from 1 on, and a session from 1 to 15.
    pub fn is_in_bounds(&self) -> bool
        ensures { result ≡ pair_fits self.now.ue self.now.id }
    {
        self.ue > 0 && is_session(self.id)
    }
}
