// A refusal that hands back what the call took.
ghost use Rattle.std.specs.Prelude.{◌≡◌};

use crate::refusal::Refusal;

/// Why a call was not carried out, with what it took, as that was.
#[derive(Debug, Drop)]
pub struct HandedBack<T> {
    pub refusal: Refusal,
    pub value: T,
}

impl<T: Drop> From<HandedBack<T>> for Refusal {
    ghost from_gives = { λ h r. r ≡ h.refusal };

    fn from(handed_back: HandedBack<T>) -> Refusal {
        handed_back.refusal
    }
}
