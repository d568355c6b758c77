// What a request asks for.
ghost use Rattle.std.specs.Prelude.{◌≡◌};
ghost use Rattle.codes.specs.RequestTypes.{request_number, NumberedAs};

use crate::refusal::Refusal;

/// What a UE asks for with a payload, by the request type's number (TS 24.501 clause 9.11.3.47).
#[derive(Clone, Copy, Debug, PartialEq, Eq)]
pub enum RequestType {
    /// A new PDU session.
    Initial = 1,
    /// A PDU session that exists elsewhere.
    Existing = 2,
    /// A new emergency PDU session.
    InitialEmergency = 3,
    /// An emergency PDU session that exists elsewhere.
    ExistingEmergency = 4,
    /// A change of a PDU session.
    Modification = 5,
}

impl From<RequestType> for u8 {
    ghost from_gives = { λ t n. n ≡ request_number t };

    fn from(request_type: RequestType) -> u8 {
        request_type as u8
    }
}

/// A number that is no request type's is refused as an unknown request.
impl TryFrom<u8> for RequestType {
    type Error = Refusal;

    ghost try_from_gives = { NumberedAs };

    fn try_from(number: u8) -> Result<RequestType, Refusal> {
        match number {
            1 => Ok(RequestType::Initial),
            2 => Ok(RequestType::Existing),
            3 => Ok(RequestType::InitialEmergency),
            4 => Ok(RequestType::ExistingEmergency),
            5 => Ok(RequestType::Modification),
            _ => Err(Refusal::UnknownRequest),
        }
    }
}
