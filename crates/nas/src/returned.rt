// The DL NAS TRANSPORT message that returns a payload to its sender.
ghost use Rattle.std.specs.Prelude.{◌≡◌, ◌+◌, ◌≤◌, length};
ghost use Rattle.nas.specs.Returns.{back_off_element, overwritten, Returns};
ghost use Rattle.codes.specs.Refusals.{numbered};

use crate::element::SESSION_ID;
use crate::uplink::MAX_PAYLOAD;
use codes::{Cause, Refusal, SessionId, is_session};

/// The octets in front of the payload's length: a DL NAS TRANSPORT message of N1 SM information.
pub const RETURN_HEADER: [u8; 4] = [0x7E, 0x00, 0x68, 0x01];

/// How many octets a return takes besides its payload, with a cause that has a back-off octet.
pub const RETURN_OVERHEAD: usize = 13;

// What is written from the front on, up to `end`. The octets are lent, so this is no `Vec`.
#[derive(Drop)]
struct Output<'a> {
    octets: &'a mut [u8],
    end: usize,
}

impl<'a> Output<'a> {
    fn put(&mut self, octets: &[u8])
        requires { self.old.end + length octets.now ≤ length self.old.octets.now }
        ensures end { self.new.end ≡ self.old.end + length octets.now }
        ensures after { self.new.octets.now ≡ overwritten self.old.octets.now self.old.end octets.now }
        ensures same_reference { self.new.octets.ghost_name ≡ self.old.octets.ghost_name }
    {
        let end = self.end + octets.len();
        self.octets[self.end..end].copy_from_slice(octets);
        self.end = end;
    }

    // The element that says how long to back off, where the cause has an octet for it. It stands
    // alone, since behind an `if let` in `write_return` the check loses sight of the octets.
    fn put_back_off(&mut self, octet: Option<u8>)
        requires { self.old.end + length (back_off_element octet) ≤ length self.old.octets.now }
        ensures end { self.new.end ≡ self.old.end + length (back_off_element octet) }
        ensures after { self.new.octets.now
            ≡ overwritten self.old.octets.now self.old.end (back_off_element octet) }
        ensures same_reference { self.new.octets.ghost_name ≡ self.old.octets.ghost_name }
    {
        if let Some(octet) = octet {
            self.put(&[0x37, 1, octet]);
        }
    }
}

/// Writes the DL NAS TRANSPORT message (TS 24.501 clause 8.2.11) that returns a payload to the
/// front of `output`, and answers its length in octets; the other octets stay. A payload that is
/// not 1 to 2,048 octets long is refused, so is a session that is not 1 to 15, and an output
/// shorter than the payload and 13 octets; `output` is then as it was.
pub fn write_return(
    output: &mut [u8],
    payload: &[u8],
    session: SessionId,
    cause: Cause,
) -> Result<usize, Refusal>
    ensures { Returns output.old payload.now session cause (numbered result) output.new }
{
    let length = payload.len();
    if !(1..=MAX_PAYLOAD).contains(&length) {
        return Err(Refusal::PayloadLength);
    }
    if !is_session(session) {
        return Err(Refusal::SessionBounds);
    }
    if output.len() < length + RETURN_OVERHEAD {
        return Err(Refusal::OutputLength);
    }
    let mut written = Output {
        octets: output,
        end: 0,
    };
    written.put(&RETURN_HEADER);
    written.put(&(length as u16).to_be_bytes());
    written.put(payload);
    written.put(&[SESSION_ID, session, 0x58, u8::from(cause)]);
    written.put_back_off(cause.back_off());
    Ok(written.end)
}
