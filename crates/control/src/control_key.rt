// What a control line is about. Its kind says which of slice and DNN it names.
ghost use Rattle.std.specs.Prelude.{◌≡◌};
ghost use Rattle.std.specs.Option.{ok_or};
ghost use Rattle.codes.specs.declared.refusal.Refusal.TheVariants.{ControlKind};
ghost use Rattle.codes.specs.Refusals.{refusal_number, numbered};
ghost use Rattle.control.specs.Keys.{key_for};

use crate::control_numbers::ControlNumbers;
use codes::{DnnNumber, Refusal, SliceCode};

/// What a control line is about.
#[derive(Clone, Copy, Debug, PartialEq, Eq)]
pub enum ControlKey {
    /// Congestion of a DNN: kind 1.
    Dnn(DnnNumber),
    /// Congestion of a slice with a DNN: kind 2.
    SliceAndDnn(SliceCode, DnnNumber),
    /// Congestion of a slice: kind 3.
    Slice(SliceCode),
}

/// What the kind does not name is not looked at. A kind that is not 1 to 3 is refused.
impl TryFrom<ControlNumbers> for ControlKey {
    type Error = Refusal;

    ghost try_from_gives = { λ n r. numbered r ≡ ok_or (key_for n) (refusal_number ControlKind) };

    fn try_from(numbers: ControlNumbers) -> Result<ControlKey, Refusal> {
        match numbers.kind {
            1 => Ok(ControlKey::Dnn(numbers.dnn)),
            2 => Ok(ControlKey::SliceAndDnn(numbers.slice, numbers.dnn)),
            3 => Ok(ControlKey::Slice(numbers.slice)),
            _ => Err(Refusal::ControlKind),
        }
    }
}
