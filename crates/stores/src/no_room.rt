// A store's answer where it has no room for a context.
ghost use Rattle.std.specs.Prelude.{◌≡◌};
ghost use Rattle.codes.specs.Refusals.{refusal_number};
ghost use Rattle.codes.specs.declared.refusal.Refusal.TheVariants as refusal;

use codes::Refusal;

/// There is no room for the context.
#[derive(Clone, Copy, Debug, PartialEq, Eq)]
pub struct NoRoom;

impl From<NoRoom> for Refusal {
    ghost from_gives = { λ _ r. refusal_number r ≡ refusal_number refusal.NoRoom };

    fn from(_no_room: NoRoom) -> Refusal {
        Refusal::NoRoom
    }
}
