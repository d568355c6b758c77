// The tickets that a host holds, by their numbers.
ghost use Rattle.std.specs.Prelude.{◌≡◌, ◌<◌, ◌++◌, ◌∷◌, [], IfOk, IfSome, MatchOption, vec_len, vec_capacity};
ghost use Rattle.hosts.specs.Holdings.{TakenOut};

use router::Ticket;
use std::alloc::{AllocError, Global};

// No `Drop`, as a ticket has none.
pub(crate) struct Tickets {
    held: Vec<Ticket>,
}

impl Tickets {
    pub(crate) fn new(heap: Global) -> Tickets
        ensures { result.held.items ≡ [] }
    {
        Tickets {
            held: Vec::new(heap),
        }
    }

    // Makes room for one more. A ticket cannot be dropped, so there has to be room before there is a ticket.
    pub(crate) fn reserve(&mut self) -> Result<(), AllocError>
        ensures same { self.new.held.items ≡ self.old.held.items }
        ensures room { IfOk result (λ _. vec_len self.new.held < vec_capacity self.new.held) }
    {
        self.held.reserve(1)
    }

    // One more, for which there is room.
    pub(crate) fn add(&mut self, ticket: Ticket)
        requires { vec_len self.old.held < vec_capacity self.old.held }
        ensures { self.new.held.items ≡ self.old.held.items ++ ticket ∷ [] }
    {
        self.held.push_reserved(ticket);
    }

    fn place_of(&self, number: u32) -> Option<usize>
        ensures { IfSome result (λ i. i < vec_len self.now.held) }
    {
        self.held
            .iter()
            .position(|ticket| ticket.number() == number)
    }

    // The ticket of this number.
    pub(crate) fn find(&self, number: u32) -> Option<&Ticket> {
        let i = self.place_of(number)?;
        Some(&self.held[i])
    }

    // The same, which is then no longer held here.
    pub(crate) fn take(&mut self, number: u32) -> Option<Ticket>
        ensures taken { MatchOption result (self.new.held.items ≡ self.old.held.items)
            (λ t. TakenOut self.old.held.items t self.new.held.items) }
        ensures room { IfSome result (λ _. vec_len self.new.held < vec_capacity self.new.held) }
    {
        let i = self.place_of(number)?;
        Some(self.held.remove(i))
    }

    // The last ticket, which is then no longer held here.
    pub(crate) fn take_last(&mut self) -> Option<Ticket>
        ensures { MatchOption result ((self.old.held.items ≡ []) × (self.new.held.items ≡ []))
            (λ t. self.old.held.items ≡ self.new.held.items ++ t ∷ []) }
    {
        self.held.pop()
    }

    // Frees a list that is empty.
    pub(crate) fn end(self)
        requires { self.held.items ≡ [] }
    {
        let Tickets { held } = self;
        held.destroy_empty();
    }
}
