// Tickets, and what becomes of them.
ghost use Rattle.examples.specs.Tickets.{IsOpen};

use super::Host;
use crate::compare::{UNWRITTEN, is_unwritten, is_written};
use crate::example::{End, Failing};
use crate::tally::Tally;
use crate::tickets::{fail, park, pick, take};
use codes::Refusal;
use router::{Router, Ticket};
use stores::Store;

pub(super) fn clear(output: &mut [u8]) {
    output.fill(UNWRITTEN);
}

// Octets that are answered, or a refusal by its number.
pub(super) fn is_reply(answer: Result<&[u8], Refusal>, reply: Result<&[u8], u8>) -> bool {
    match (answer, reply) {
        (Ok(octets), Ok(expected)) => octets == expected,
        (Err(refusal), Err(number)) => u8::from(refusal) == number,
        _ => false,
    }
}

// What failing answered, and what it left in the output.
fn is_failed(answer: Result<usize, Refusal>, output: &[u8], reply: Result<&[u8], u8>) -> bool {
    match (answer, reply) {
        (Ok(length), Ok(octets)) => length == octets.len() && is_written(output, octets),
        (Err(refusal), Err(number)) => u8::from(refusal) == number && is_unwritten(output),
        _ => false,
    }
}

fn end_by_failing<S: Store>(
    tally: &mut Tally<'_>,
    router: &mut Router<S>,
    pool: &[u8],
    output: &mut [u8],
    ticket: Ticket,
    failing: Failing,
)
    requires { IsOpen router.old ticket }
{
    clear(output);
    let pool_length = failing.pool.min(pool.len());
    let output_length = failing.output.min(output.len());
    let answer = fail(
        router,
        &pool[..pool_length],
        &mut output[..output_length],
        ticket,
    );
    tally.compare(
        "what failing answers and writes",
        is_failed(answer, output, failing.reply),
    );
}

// The ticket comes to this end, and no longer is in hand.
pub(super) fn end<S: Store>(
    tally: &mut Tally<'_>,
    router: &mut Router<S>,
    pool: &[u8],
    output: &mut [u8],
    ticket: Ticket,
    end: End,
)
    requires { IsOpen router.old ticket }
{
    match end {
        End::Taken => take(router, ticket),
        End::Failed(failing) => end_by_failing(tally, router, pool, output, ticket, failing),
        End::Parked => {
            let number = ticket.number();
            let parked = park(router, ticket);
            tally.compare("the number of a parked ticket", parked == number);
        }
    }
}

impl<'a, S: Store> Host<'a, S> {
    pub(super) fn pick(&mut self, tally: &mut Tally<'_>, number: u32, how: End) {
        match pick(&mut self.router, number) {
            Ok(ticket) => {
                tally.compare("the ticket of a number", ticket.number() == number);
                end(
                    tally,
                    &mut self.router,
                    self.pool.as_slice(),
                    self.output.as_mut_slice(),
                    ticket,
                    how,
                );
            }
            Err(_) => tally.compare("picking a parked number", false),
        }
    }

    pub(super) fn refuse_pick(&mut self, tally: &mut Tally<'_>, number: u32) {
        match pick(&mut self.router, number) {
            Ok(ticket) => {
                park(&mut self.router, ticket);
                tally.compare("picking a number that is not parked", false);
            }
            Err(refusal) => tally.compare("the refusal of a number", u8::from(refusal) == 17),
        }
    }

    // The payload of a parked number.
    pub(super) fn payload(
        &mut self,
        tally: &mut Tally<'_>,
        number: u32,
        pool_length: usize,
        reply: Result<&[u8], u8>,
    ) {
        let pool_length = pool_length.min(self.pool.len());
        match pick(&mut self.router, number) {
            Ok(ticket) => {
                let answer = self.router.payload(&self.pool[..pool_length], &ticket);
                tally.compare("the payload of a number", is_reply(answer, reply));
                park(&mut self.router, ticket);
            }
            Err(_) => tally.compare("picking a parked number", false),
        }
    }
}
