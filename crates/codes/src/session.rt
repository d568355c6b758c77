// The numbers that a PDU session of a UE can have.
ghost use Rattle.std.specs.Prelude.{◌≡◌};
ghost use Rattle.codes.specs.Sessions.{session_fits};

use crate::ids::SessionId;

// The highest number that a session has.
const MAX_SESSION: SessionId = 15;

/// Whether a PDU session of a UE can have this number: 1 to 15 (TS 24.501 clause 9.11.3.41).
pub fn is_session(session: SessionId) -> bool
    ensures { result ≡ session_fits session }
{
    (1..=MAX_SESSION).contains(&session)
}
