// Reading the message that a receive is handed.
ghost use Rattle.std.specs.Prelude.{◌≡◌, IfOk};
ghost use Rattle.nas.specs.Uplinks.{read};
ghost use Rattle.nas.specs.Views.{answer};
ghost use Rattle.router.specs.Receiving.{Fitting};

use codes::Refusal;
use nas::{Uplink, read_uplink};

fn read(message: &[u8]) -> Result<Uplink<'_>, Refusal>
    ensures { answer result ≡ read message.now }
{
    read_uplink(message)
}

// The message, which then is in the bounds of a slot and of a store.
#[tactic(auto, using(crate::proofs::Bounds::fitting))]
pub(crate) fn read_fitting(message: &[u8]) -> Result<Uplink<'_>, Refusal>
    ensures value { answer result ≡ read message.now }
    ensures bounds { IfOk result Fitting }
{
    read(message)
}
