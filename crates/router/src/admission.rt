// A message that passed all checks of a receive.
ghost use Rattle.std.specs.Prelude.{◌≡◌, ◌≤◌, length};
ghost use Rattle.nas.specs.Views.{decoded};
ghost use Rattle.runs.specs.Calls.{new_flight};
ghost use Rattle.runs.specs.Models.{slot_length};

use codes::UeNumber;
use flights::{Flight, Mark};
use nas::Uplink;

#[derive(Clone, Copy)]
pub(crate) struct Admission<'m> {
    pub(crate) uplink: Uplink<'m>,
    /// The number that it gets.
    pub(crate) number: u32,
    /// A slot that is free.
    pub(crate) slot: usize,
}

impl<'m> Admission<'m> {
    // What it is once it is forwarded, with or without a context that is put for it.
    pub(crate) fn flight(&self, ue: UeNumber, establishes: bool) -> Flight
        requires { length self.now.uplink.payload.now ≤ slot_length }
        ensures { result ≡ new_flight self.now.number ue (decoded self.now.uplink) establishes }
    {
        Flight {
            number: self.number,
            ue,
            session: self.uplink.session,
            length: self.uplink.payload.len() as u16,
            establishes,
            mark: Mark::InHand,
        }
    }
}
