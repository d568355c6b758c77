// The messages that are sent.
use std::alloc::{AllocError, Global};

#[derive(Clone, Copy)]
pub(crate) enum Message {
    /// Just these octets.
    Octets(&'static [u8]),
    /// An initial request of session 1, whose length octets claim so many octets of payload, with so many.
    Payload { claimed: u16, carried: u16 },
    /// Session 1 with a payload of one octet, and an element of this kind with so many octets of
    /// contents, which its length octet tells.
    Element { kind: u8, length: u8 },
}

// What the payloads and the contents are made of.
const FILLING: u8 = 0x2E;

const HEADER: &[u8] = b"\x7E\x00\x67\x01";

fn push_filling(octets: &mut Vec<u8>, count: u16) -> Result<(), AllocError> {
    for _ in 0..count {
        octets.push(FILLING)?;
    }
    Ok(())
}

impl Message {
    pub(crate) fn octets(&self, heap: Global) -> Result<Vec<u8>, AllocError> {
        match *self {
            Message::Octets(octets) => octets.to_vec(heap),
            Message::Payload { claimed, carried } => {
                let mut octets = HEADER.to_vec(heap)?;
                octets.extend_from_slice(&claimed.to_be_bytes())?;
                push_filling(&mut octets, carried)?;
                octets.extend_from_slice(b"\x12\x01\x81")?;
                Ok(octets)
            }
            Message::Element { kind, length } => {
                let mut octets = HEADER.to_vec(heap)?;
                octets.extend_from_slice(b"\x00\x01\x2E\x12\x01")?;
                octets.push(kind)?;
                octets.push(length)?;
                push_filling(&mut octets, u16::from(length))?;
                Ok(octets)
            }
        }
    }
}
