// The UL NAS TRANSPORT message.
ghost use Rattle.std.specs.Prelude.{◌≡◌};
ghost use Rattle.nas.specs.Uplinks.{header, judged, noted, nothing, walk, slice_in};
ghost use Rattle.nas.specs.Messages.{Reads};
ghost use Rattle.codes.specs.Refusals.{numbered};
ghost use Rattle.nas.specs.Views.{parts, seen, answer};

use crate::element::{DNN, Element, OLD_SESSION_ID, Reader, S_NSSAI, SESSION_ID};
use codes::{Refusal, RequestType, SessionId, SliceCode, is_session};
use names::MAX_NAME;

/// How many octets the longest payload has.
pub const MAX_PAYLOAD: usize = 2048;

// How many octets stand in front of the payload.
const HEADER_LENGTH: usize = 6;

/// An UL NAS TRANSPORT message as it was read (TS 24.501 clause 8.2.10). The payload and the DNN
/// are parts of its octets.
#[derive(Clone, Copy, Debug)]
pub struct Uplink<'a> {
    /// 1 to 2,048 octets of N1 SM information.
    pub payload: &'a [u8],
    /// 1 to 15 (PDU session identity 2, clause 9.11.3.41).
    pub session: SessionId,
    /// The session that this one replaces: 1 to 15, and another (clause 9.11.3.41).
    pub old_session: Option<SessionId>,
    /// What is asked for (request type, clause 9.11.3.47).
    pub request_type: Option<RequestType>,
    /// The slice (S-NSSAI, clause 9.11.2.8).
    pub slice: Option<SliceCode>,
    /// The DNN's 1 to 100 octets (clause 9.11.2.1B).
    pub dnn: Option<&'a [u8]>,
}

// The length of the payload.
fn read_header(octets: &[u8]) -> Result<usize, Refusal>
    ensures { numbered result ≡ header octets.now }
{
    let [
        discriminator,
        security,
        message_type,
        payload_type,
        high,
        low,
        _,
        ..
    ] = octets
    else {
        return Err(Refusal::Overrun);
    };
    if *discriminator != 0x7E || *security % 16 != 0 || *message_type != 0x67 {
        return Err(Refusal::Header);
    }
    if *payload_type % 16 != 1 {
        return Err(Refusal::PayloadType);
    }
    let length = u16::from_be_bytes([*high, *low]) as usize;
    if !(1..=MAX_PAYLOAD).contains(&length) {
        return Err(Refusal::PayloadLength);
    }
    if octets.len() < HEADER_LENGTH + length {
        return Err(Refusal::Overrun);
    }
    Ok(length)
}

// The slice code of an S-NSSAI. FFFFFF stands for an SD that is absent.
fn slice_code(contents: &[u8]) -> Result<SliceCode, Refusal>
    ensures { numbered result ≡ slice_in contents.now }
{
    match contents {
        [sst] | [sst, _] => Ok(SliceCode::from_be_bytes([*sst, 0xFF, 0xFF, 0xFF])),
        [sst, a, b, c] | [sst, a, b, c, _] | [sst, a, b, c, _, _, _, _] => {
            Ok(SliceCode::from_be_bytes([*sst, *a, *b, *c]))
        }
        _ => Err(Refusal::ElementLength),
    }
}

// What the elements say so far.
#[derive(Default, Drop)]
struct Parts<'a> {
    session: Option<SessionId>,
    old_session: Option<SessionId>,
    // Still a number: one that is no request type is refused only after the sessions were judged.
    request: Option<u8>,
    slice: Option<SliceCode>,
    dnn: Option<&'a [u8]>,
}

impl<'a> Parts<'a> {
    // Takes in what an element says, unless one of its kind came before.
    fn note(&mut self, element: Element<'a>) -> Result<(), Refusal>
        ensures { seen (λ _. parts self.new) result
            ≡ noted (parts self.old) element.entry.identifier element.entry.contents.now }
    {
        match element.identifier {
            SESSION_ID if self.session.is_none() => {
                self.session = element.contents.first().copied();
            }
            OLD_SESSION_ID if self.old_session.is_none() => {
                self.old_session = element.contents.first().copied();
            }
            S_NSSAI if self.slice.is_none() => self.slice = Some(slice_code(element.contents)?),
            DNN if self.dnn.is_none() => {
                if !(1..=MAX_NAME).contains(&element.contents.len()) {
                    return Err(Refusal::ElementLength);
                }
                self.dnn = Some(element.contents);
            }
            0x80..=0x8F if self.request.is_none() => {
                self.request = Some((element.identifier % 8).max(1));
            }
            _ => {}
        }
        Ok(())
    }

    // What the elements in `rest` say.
    #[tactic(auto, using(crate::proofs::Passing::walk_laws), unfolding(crate::specs::Uplinks::walk))]
    fn read(rest: &'a [u8]) -> Result<Parts<'a>, Refusal>
        ensures { seen parts result ≡ walk 0 nothing rest.now }
    {
        let mut reader = Reader { rest };
        let mut found = Parts::default();
        while let Some(element) = reader.next_element()? {
            found.note(element)?;
        }
        Ok(found)
    }

    // The message, if its sessions and its request type can be served.
    fn judge(self, payload: &'a [u8]) -> Result<Uplink<'a>, Refusal>
        ensures { answer result ≡ judged payload.now (parts self.entry) }
    {
        let session = self
            .session
            .filter(|session| is_session(*session))
            .ok_or(Refusal::SessionBounds)?;
        if self
            .old_session
            .is_some_and(|old| !is_session(old) || old == session)
        {
            return Err(Refusal::SessionBounds);
        }
        let request_type = self.request.map(RequestType::try_from).transpose()?;
        Ok(Uplink {
            payload,
            session,
            old_session: self.old_session,
            request_type,
            slice: self.slice,
            dnn: self.dnn,
        })
    }
}

/// Reads a whole UL NAS TRANSPORT message (TS 24.501 clause 8.2.10), of whose elements the first of
/// each kind counts. `Reads` defines the answer, with the laws that stand above it: a message is
/// refused that is cut short, has another header, a payload that is not 1 to 2,048 octets long, an
/// element that cannot be, or a session or a request type that is out of bounds.
#[tactic(auto, using(crate::proofs::Laws::lawful, crate::proofs::Passing::elements_split))]
pub fn read_uplink(octets: &[u8]) -> Result<Uplink<'_>, Refusal>
    ensures { Reads octets.now (answer result) }
{
    let length = read_header(octets)?;
    let (_, behind) = octets.split_at(HEADER_LENGTH);
    let (payload, elements) = behind.split_at(length);
    Parts::read(elements)?.judge(payload)
}
