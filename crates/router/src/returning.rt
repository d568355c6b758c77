// Writing what goes back to a UE.
ghost use Rattle.std.specs.Prelude.{◌≡◌, ◌<◌, ◌≤◌, length, take, IfOk, OnErr};
ghost use Rattle.codes.specs.Refusals.{numbered};
ghost use Rattle.codes.specs.Sessions.{max_session};
ghost use Rattle.nas.specs.Returns.{returned};
ghost use Rattle.router.specs.Buffers.{FrontWritten, return_length};
ghost use Rattle.nas.specs.Uplinks.{max_payload};

use codes::{Cause, Refusal, SessionId};
use nas::write_return;

// Writes the return of a payload to the front of `output`, and answers its length. Only an output
// that is too short is refused.
pub(crate) fn return_payload(
    output: &mut [u8],
    payload: &[u8],
    session: SessionId,
    cause: Cause,
) -> Result<usize, Refusal>
    requires some { 0 < length payload.now }
    requires few { length payload.now ≤ max_payload }
    requires first { 0 < session }
    requires last { session ≤ max_session }
    ensures value { numbered result ≡ return_length (length output.old) payload.now session cause }
    ensures octets { IfOk result (λ n. take n output.new ≡ returned payload.now session cause) }
    ensures rest { IfOk result (λ n. FrontWritten n output.old output.new) }
    ensures untouched { OnErr result (output.new ≡ output.old) }
{
    write_return(output, payload, session, cause)
}
