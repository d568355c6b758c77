// The information elements behind the payload.
ghost use Rattle.std.specs.Prelude.{◌≡◌, MatchResult};
ghost use Rattle.codes.specs.Refusals.{refuse};
ghost use Rattle.nas.specs.Elements.{element};
ghost use Rattle.nas.specs.Steps.{Extends, Stepped, Stopped};

use codes::Refusal;

// First octets of elements. They stay octets, since a kind is also told by a range, as 0x80..=0x8F.

/// The PDU session's identity (PDU session identity 2, TS 24.501 clause 9.11.3.41).
pub const SESSION_ID: u8 = 0x12;

/// The slice (S-NSSAI, TS 24.501 clause 9.11.2.8).
pub const S_NSSAI: u8 = 0x22;

/// The DNN (TS 24.501 clause 9.11.2.1B).
pub const DNN: u8 = 0x25;

/// The identity of the session that is to be replaced (PDU session identity 2, TS 24.501 clause
/// 9.11.3.41).
pub const OLD_SESSION_ID: u8 = 0x59;

// How many octets the length and the contents of an element take.
#[derive(Clone, Copy)]
struct Extent {
    length_octets: usize,
    contents: usize,
}

impl Extent {
    // `rest` is what follows the element's first octet.
    fn of(identifier: u8, rest: &[u8]) -> Result<Extent, Refusal>
        ensures { MatchResult result
            (λ e. Extends identifier rest.now e)
            (λ e. element identifier rest.now ≡ refuse e) }
    {
        let extent = match identifier {
            0x00..=0x0F => return Err(Refusal::ElementKind),
            SESSION_ID | OLD_SESSION_ID => Extent {
                length_octets: 0,
                contents: 1,
            },
            0x10..=0x6F => Extent {
                length_octets: 1,
                contents: *rest.first().ok_or(Refusal::Overrun)? as usize,
            },
            0x70..=0x7F => Extent {
                length_octets: 2,
                contents: u16::from_be_bytes(*rest.first_chunk().ok_or(Refusal::Overrun)?) as usize,
            },
            0x80..=0xFF => Extent {
                length_octets: 0,
                contents: 0,
            },
        };
        if rest.len() < extent.length_octets + extent.contents {
            return Err(Refusal::Overrun);
        }
        Ok(extent)
    }
}

/// An element by its first octet and its contents, which are a part of the message.
#[derive(Drop)]
pub struct Element<'a> {
    pub identifier: u8,
    pub contents: &'a [u8],
}

/// Walks the elements, of which `rest` are yet to come.
#[derive(Drop)]
pub struct Reader<'a> {
    pub rest: &'a [u8],
}

impl<'a> Reader<'a> {
    /// The next element, which is then passed over, or none at the end. One that cannot be is
    /// refused by its first octet, one that runs past the message's end as an overrun; the reader
    /// is then where it was.
    #[tactic(auto, using(crate::proofs::Passing::passed))]
    pub fn next_element(&mut self) -> Result<Option<Element<'a>>, Refusal>
        ensures { MatchResult result
            (λ e. Stepped self.old.rest.now e self.new.rest.now)
            (λ e. Stopped self.old.rest.now e) }
    {
        let Some((identifier, behind)) = self.rest.split_first() else {
            return Ok(None);
        };
        let extent = Extent::of(*identifier, behind)?;
        let (_, behind) = behind.split_at(extent.length_octets);
        let (contents, rest) = behind.split_at(extent.contents);
        self.rest = rest;
        Ok(Some(Element {
            identifier: *identifier,
            contents,
        }))
    }
}
