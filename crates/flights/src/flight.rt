// Flights.
ghost use Rattle.std.specs.Prelude.{◌≡◌};
ghost use Rattle.flights.specs.Slots.{with_mark};

use codes::{SessionId, UeNumber};

/// Who has the ticket of a flight.
#[derive(Clone, Copy, Debug, PartialEq, Eq)]
pub enum Mark {
    /// The host has its ticket.
    InHand,
    /// The host gave its ticket for its number.
    Parked,
}

/// A payload in flight. It stands in a slot of the pool, which has its octets.
#[derive(Clone, Copy)]
pub struct Flight {
    /// That of the message which had it.
    pub number: u32,
    pub ue: UeNumber,
    pub session: SessionId,
    /// How many octets it has.
    pub length: u16,
    /// The context of the session was put for it.
    pub establishes: bool,
    pub mark: Mark,
}

impl Flight {
    pub(crate) fn set_mark(&mut self, mark: Mark)
        ensures { self.new ≡ with_mark mark self.old }
    {
        self.mark = mark;
    }
}
