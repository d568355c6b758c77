// Giving open tickets back, which the router then does not refuse.
ghost use Rattle.std.specs.Prelude.{IfOk};
ghost use Rattle.examples.specs.Tickets.{IsOpen};

use codes::{HandedBack, Refusal};
use router::{Router, Ticket};
use stores::Store;

pub(crate) fn take<S: Store>(router: &mut Router<S>, ticket: Ticket)
    requires { IsOpen router.old ticket }
{
    match router.taken(ticket) {
        Ok(()) => {}
        Err(_) => unreachable!(),
    }
}

pub(crate) fn park<S: Store>(router: &mut Router<S>, ticket: Ticket) -> u32
    requires { IsOpen router.old ticket }
{
    match router.park(ticket) {
        Ok(number) => number,
        Err(_) => unreachable!(),
    }
}

// The ticket of a parked number, which is open again.
pub(crate) fn pick<S: Store>(router: &mut Router<S>, number: u32) -> Result<Ticket, Refusal>
    ensures { IfOk result (λ t. IsOpen router.new t) }
{
    match router.pick(number) {
        Ok(ticket) => Ok(ticket),
        Err(refusal) => Err(refusal),
    }
}

// Where the buffers are at fault, the ticket is parked.
pub(crate) fn fail<S: Store>(
    router: &mut Router<S>,
    pool: &[u8],
    output: &mut [u8],
    ticket: Ticket,
) -> Result<usize, Refusal>
    requires { IsOpen router.old ticket }
{
    match router.failed(pool, output, ticket) {
        Ok(length) => Ok(length),
        Err(HandedBack { refusal, value }) => {
            park(router, value);
            Err(refusal)
        }
    }
}
