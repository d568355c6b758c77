// Tickets that are open in another router.
ghost use Rattle.std.specs.Prelude.{◌≡◌, IfSome};
ghost use Rattle.examples.specs.Tickets.{HasOpen};

use super::Host;
use super::holding::clear;
use crate::compare::is_unwritten;
use crate::small_core::{OUTPUT_LENGTH, SAMPLE, SENDING};
use crate::tally::Tally;
use crate::tickets::take;
use codes::{HandedBack, Refusal};
use directories::Directory;
use router::{Answer, Delivery, POOL_LENGTH, Ticket};
use stores::Store;

fn is_unknown(refusal: Refusal) -> bool {
    u8::from(refusal) == 17
}

impl<'a, S: Store> Host<'a, S> {
    fn refuse_payload(&self, tally: &mut Tally<'_>, ticket: &Ticket) {
        let answer = self.router.payload(self.pool.as_slice(), ticket);
        tally.compare(
            "the payload of another router's ticket",
            answer.is_err_and(is_unknown),
        );
    }

    fn refuse_taken(&mut self, tally: &mut Tally<'_>, ticket: Ticket) -> Option<Ticket>
        ensures { IfSome result (λ t. t ≡ ticket) }
    {
        match self.router.taken(ticket) {
            Ok(()) => {
                tally.compare("taken with another router's ticket", false);
                None
            }
            Err(HandedBack { refusal, value }) => {
                tally.compare("the refusal of taken", is_unknown(refusal));
                Some(value)
            }
        }
    }

    fn refuse_park(&mut self, tally: &mut Tally<'_>, ticket: Ticket) -> Option<Ticket>
        ensures { IfSome result (λ t. t ≡ ticket) }
    {
        match self.router.park(ticket) {
            Ok(_) => {
                tally.compare("parking another router's ticket", false);
                None
            }
            Err(HandedBack { refusal, value }) => {
                tally.compare("the refusal of park", is_unknown(refusal));
                Some(value)
            }
        }
    }

    fn refuse_failed(
        &mut self,
        tally: &mut Tally<'_>,
        ticket: Ticket,
        pool: usize,
        output: usize,
        number: u8,
    ) -> Option<Ticket>
        ensures { IfSome result (λ t. t ≡ ticket) }
    {
        clear(self.output.as_mut_slice());
        let pool = pool.min(self.pool.len());
        let output = output.min(self.output.len());
        let answer = self
            .router
            .failed(&self.pool[..pool], &mut self.output[..output], ticket);
        tally.compare("an unwritten output", is_unwritten(self.output.as_slice()));
        match answer {
            Ok(_) => {
                tally.compare("failed with another router's ticket", false);
                None
            }
            Err(HandedBack { refusal, value }) => {
                tally.compare("the refusal of failed", u8::from(refusal) == number);
                Some(value)
            }
        }
    }

    // No call takes the ticket. A pool of a wrong length is refused before it, and an output that is too
    // short behind it.
    fn refuse_ticket(&mut self, tally: &mut Tally<'_>, ticket: Ticket) -> Option<Ticket>
        ensures { IfSome result (λ t. t ≡ ticket) }
    {
        self.refuse_payload(tally, &ticket);
        let ticket = self.refuse_taken(tally, ticket)?;
        let ticket = self.refuse_park(tally, ticket)?;
        let ticket = self.refuse_failed(tally, ticket, POOL_LENGTH - 1, 0, 2)?;
        let ticket = self.refuse_failed(tally, ticket, POOL_LENGTH, 0, 17)?;
        self.refuse_failed(tally, ticket, POOL_LENGTH, OUTPUT_LENGTH, 17)
    }

    // The other router takes it back in the end.
    fn refuse_delivery(
        &mut self,
        tally: &mut Tally<'_>,
        other: &mut Host<'_, S>,
        delivery: Delivery,
    )
        requires { HasOpen other.old.router delivery }
    {
        match delivery {
            Delivery::Forwarded(ticket) => match self.refuse_ticket(tally, ticket) {
                Some(ticket) => take(&mut other.router, ticket),
                None => {}
            },
            Delivery::Returned { length: _ } => tally.compare("a ticket of another router", false),
        }
    }

    // The ticket of a message that another router forwarded.
    pub(crate) fn refuse_foreign<D: Directory>(
        &mut self,
        tally: &mut Tally<'_>,
        directory: &mut D,
        other: &mut Host<'_, S>,
    ) {
        match other.receive_octets(directory, &SENDING, SAMPLE) {
            Ok(
                Answer {
                    number: _,
                    old_session: _,
                    request_type: _,
                    verdict: _,
                    delivery,
                },
            ) => self.refuse_delivery(tally, other, delivery),
            Err(_) => tally.compare("accepting a message", false),
        }
    }
}
