// What a host holds of a payload in flight.
ghost use Rattle.std.specs.Prelude.{◌≡◌};

/// What a host holds of a payload in flight: plain numbers, and no `Drop`, so that whoever has it can only give it
/// to a call that takes it.
#[derive(Debug)]
pub struct Ticket {
    pub(crate) number: u32,
    // The slot of the pool that has the octets.
    pub(crate) slot: usize,
}

impl Ticket {
    /// The number of the payload, from 1 to 4,294,967,295.
    pub fn number(&self) -> u32
        ensures { result ≡ self.now.number }
    {
        self.number
    }
}
