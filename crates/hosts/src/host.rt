// A router with what its host holds for it: the tickets, by their numbers, and the pool.
ghost use Rattle.std.specs.Prelude.{◌≡◌, [], true};
ghost use Rattle.hosts.specs.Holdings.{all_open};
ghost use Rattle.router.specs.Views.{model};

use crate::lengths::Lengths;
use crate::reply::Reply;
use crate::tickets::Tickets;
use codes::{HandedBack, Refusal, SetupError};
use control::ControlTable;
use directories::Directory;
use records::UeRecord;
use router::{Answer, Delivery, POOL_LENGTH, Router};
use std::alloc::{AllocError, Global};
use stores::{Context, PduSession, Store};

// The pool, unless another buffer is asked for, which is one of another length.
fn choose_pool<'p>(pool: &'p [u8], other: &'p [u8]) -> &'p [u8] {
    if other.len() == POOL_LENGTH {
        pool
    } else {
        other
    }
}

/// A router, the tickets that its host holds, and the pool that it lends: 32,768 octets, the same ones from
/// call to call. It has no `Drop`, as a ticket has none: `end` gives the tickets back.
pub struct Host<S: Store> {
    router: Router<S>,
    tickets: Tickets,
    pool: Vec<u8>,
    // each ticket is open in the router, and no two are of one slot
    ghost held: { all_open (model router []).flights tickets.held.items ≡ true },
}

impl<S: Store + Drop> Host<S> {
    ghost use Rattle.std.specs.Prelude.{IfOk};

    /// A host of this router that holds no tickets yet. Where there is no memory for the pool, the router is
    /// let go.
    pub fn new(heap: Global, router: Router<S>) -> Result<Host<S>, AllocError>
        ensures { IfOk result (λ h. (h.router ≡ router) × (h.tickets.held.items ≡ [])) }
    {
        let pool = vec![in heap; 0; POOL_LENGTH]?;
        Ok(Host {
            router,
            tickets: Tickets::new(heap),
            pool,
        })
    }
}

impl<S: Store> Host<S> {
    ghost use Rattle.std.specs.Prelude.{IfOk};
    ghost use Rattle.hosts.specs.Holdings.{Fresh, Shrinks, KeepsStore, IsStoreOf};

    // What the router answers to a message, with a pool of this length.
    fn ask<D: Directory>(
        &mut self,
        heap: Global,
        ue: UeRecord<'_>,
        controls: &ControlTable<'_>,
        directory: &mut D,
        pool: usize,
        output: &mut [u8],
        message: &[u8],
    ) -> Result<Answer, SetupError>
        ensures tickets { self.new.tickets ≡ self.old.tickets }
        ensures given { IfOk result (λ a.
            Fresh (model self.new.router []).flights self.new.tickets.held.items a.delivery) }
    {
        if pool == POOL_LENGTH {
            let pool = self.pool.as_mut_slice();
            return Ok(
                self.router
                    .receive(ue, controls, directory, pool, output, message)?,
            );
        }
        let mut other = vec![in heap; 0; pool]?;
        let pool = other.as_mut_slice();
        Ok(
            self.router
                .receive(ue, controls, directory, pool, output, message)?,
        )
    }

    /// Hands the router a message of a UE, with buffers of these lengths, and holds the ticket that it gives.
    /// It is refused as the router refuses it.
    pub fn receive<D: Directory>(
        &mut self,
        heap: Global,
        ue: UeRecord<'_>,
        controls: &ControlTable<'_>,
        directory: &mut D,
        lengths: Lengths,
        message: &[u8],
    ) -> Result<Reply, SetupError> {
        self.tickets.reserve()?;
        let mut output = vec![in heap; 0; lengths.output]?;
        let answer = self.ask(
            heap,
            ue,
            controls,
            directory,
            lengths.pool,
            output.as_mut_slice(),
            message,
        )?;
        let Answer {
            number,
            old_session,
            request_type,
            verdict,
            delivery,
        } = answer;
        match delivery {
            Delivery::Forwarded(ticket) => {
                self.tickets.add(ticket);
                output.clear();
            }
            Delivery::Returned { length } => output.truncate(length),
        }
        Ok(Reply {
            number,
            old_session,
            request_type,
            verdict,
            returned: output,
        })
    }

    /// The octets of the payload of this number. It is refused where no ticket of it is held, and where a
    /// pool has another length.
    pub fn payload(&self, heap: Global, number: u32, pool: usize) -> Result<Vec<u8>, SetupError> {
        let other = vec![in heap; 0; pool]?;
        let ticket = self.tickets.find(number).ok_or(Refusal::UnknownTicket)?;
        let pool = choose_pool(self.pool.as_slice(), other.as_slice());
        let octets = self.router.payload(pool, ticket)?;
        Ok(octets.to_vec(heap)?)
    }

    /// An SMF took the payload of this number. It is refused where no ticket of it is held.
    pub fn taken(&mut self, number: u32) -> Result<(), Refusal> {
        let Some(ticket) = self.tickets.take(number) else {
            return Err(Refusal::UnknownTicket);
        };
        // What is held is open.
        match self.router.taken(ticket) {
            Ok(()) => Ok(()),
            Err(_) => unreachable!(),
        }
    }

    /// The SMF did not take the payload of this number: the message that goes back to the UE. Where it is
    /// refused for the sake of the buffers, the ticket is still held.
    pub fn failed(
        &mut self,
        heap: Global,
        number: u32,
        lengths: Lengths,
    ) -> Result<Vec<u8>, SetupError> {
        // Memory is asked for first: it could not be where there is a ticket to be given on.
        let mut output = vec![in heap; 0; lengths.output]?;
        let other = vec![in heap; 0; lengths.pool]?;
        let Some(ticket) = self.tickets.take(number) else {
            return Err(SetupError::from(Refusal::UnknownTicket));
        };
        let pool = choose_pool(self.pool.as_slice(), other.as_slice());
        match self.router.failed(pool, output.as_mut_slice(), ticket) {
            Ok(length) => {
                output.truncate(length);
                Ok(output)
            }
            Err(HandedBack { refusal, value }) => {
                self.tickets.add(value);
                Err(SetupError::from(refusal))
            }
        }
    }

    /// Exchanges the ticket of this number for its number. It is refused where no ticket of it is held.
    pub fn park(&mut self, number: u32) -> Result<u32, Refusal> {
        let Some(ticket) = self.tickets.take(number) else {
            return Err(Refusal::UnknownTicket);
        };
        // What is held is open.
        match self.router.park(ticket) {
            Ok(number) => Ok(number),
            Err(_) => unreachable!(),
        }
    }

    /// Holds the parked ticket of this number again. It is refused where none is parked under it.
    pub fn pick(&mut self, number: u32) -> Result<(), SetupError> {
        self.tickets.reserve()?;
        let ticket = self.router.pick(number)?;
        self.tickets.add(ticket);
        Ok(())
    }

    /// The SMF released the session: its context is gone. It is refused where there is none.
    pub fn released(&mut self, session: PduSession) -> Result<(), Refusal> {
        self.router.released(session)
    }

    /// The context of the session, if it has one.
    pub fn context(&self, session: PduSession) -> Option<Context> {
        self.router.context(session)
    }

    // Parks the last ticket; false where there is none.
    fn park_last(&mut self) -> bool
        ensures tickets { Shrinks result self.old.tickets.held.items self.new.tickets.held.items }
        ensures store { KeepsStore (model self.old.router []) (model self.new.router []) }
    {
        let Some(ticket) = self.tickets.take_last() else {
            return false;
        };
        // What is held is open.
        match self.router.park(ticket) {
            Ok(_) => true,
            Err(_) => unreachable!(),
        }
    }

    /// Parks every ticket that is held, lets the router go, and gives its store back as it was.
    pub fn end(mut self) -> S
        ensures { IsStoreOf self.router result }
    {
        while self.park_last() {}
        let Host {
            router,
            tickets,
            pool: _,
        } = self;
        tickets.end();
        router.into_store()
    }
}
