// What the calls do that follow a receive.
ghost use Rattle.std.specs.Prelude.{◌≡◌, ℕ, ◌≤◌, ◌<◌, List, IfSome, IfOk, IfErr, OnErr};
ghost use Rattle.accounts.specs.Receives.{most_flights};
ghost use Rattle.codes.specs.Sessions.{max_session};
ghost use Rattle.flights.specs.Slots.{in_hand};
ghost use Rattle.router.specs.Buffers.{FrontWritten};
ghost use Rattle.router.specs.Calls.{DoesPayload, DoesTaken, DoesFailed, DoesPark, DoesPick, DoesReleased};
ghost use Rattle.router.specs.Views.{model};
ghost use Rattle.runs.specs.Calls.{Undone};
ghost use Rattle.runs.specs.Models.{slot_length};

use super::Router;
use crate::pool::{POOL_LENGTH, slot_part};
use crate::returning::return_payload;
use crate::ticket::Ticket;
use codes::{Cause, HandedBack, Refusal};
use flights::{Flight, Mark};
use stores::{PduSession, Store};

// The ticket of a call that was refused.
fn hand_back(refusal: Refusal, ticket: Ticket) -> HandedBack<Ticket>
    ensures refusal { result.refusal ≡ refusal }
    ensures ticket { result.value ≡ ticket }
{
    HandedBack {
        refusal,
        value: ticket,
    }
}

impl<S: Store> Router<S> {
    // The flight of a ticket, if the ticket is open here.
    fn flight(&self, ticket: &Ticket) -> Option<Flight>
        ensures value { result ≡ in_hand self.now.flights.slots ticket.now.number ticket.now.slot }
        ensures slot { IfSome result (λ f. ticket.now.slot < most_flights) }
        ensures session { IfSome result (λ f. (0 < f.session) × (f.session ≤ max_session)) }
        ensures length { IfSome result (λ f. (0 < f.length) × (f.length ≤ slot_length)) }
    {
        self.flights.in_hand(ticket.number, ticket.slot)
    }

    pub(super) fn hand_out<'p>(&self, pool: &'p [u8], ticket: &Ticket) -> Result<&'p [u8], Refusal>
        ensures { DoesPayload self.now pool.now ticket.now result }
    {
        if pool.len() != POOL_LENGTH {
            return Err(Refusal::PoolLength);
        }
        let flight = self.flight(ticket).ok_or(Refusal::UnknownTicket)?;
        Ok(slot_part(pool, ticket.slot, flight.length as usize))
    }

    // The flight is over, and with it the context that was put for it.
    fn undo(&mut self, slot: usize, flight: Flight)
        ensures does { (p : List ℕ) → Undone (model self.old p) slot flight (model self.new p) }
    {
        self.flights.close(slot);
        if flight.establishes {
            self.store.remove(PduSession {
                ue: flight.ue,
                id: flight.session,
            });
        }
    }

    pub(super) fn fail(
        &mut self,
        pool: &[u8],
        output: &mut [u8],
        ticket: Ticket,
    ) -> Result<usize, HandedBack<Ticket>>
        ensures does { DoesFailed self.old pool.now output.old ticket output.new result self.new }
        ensures rest { IfOk result (λ n. FrontWritten n output.old output.new) }
        ensures untouched { OnErr result (output.new ≡ output.old) }
        ensures handed_back { IfErr result (λ e. e.value ≡ ticket) }
    {
        if pool.len() != POOL_LENGTH {
            return Err(hand_back(Refusal::PoolLength, ticket));
        }
        let Some(flight) = self.flight(&ticket) else {
            return Err(hand_back(Refusal::UnknownTicket, ticket));
        };
        let payload = slot_part(pool, ticket.slot, flight.length as usize);
        match return_payload(output, payload, flight.session, Cause::NotForwarded) {
            Ok(length) => {
                let Ticket { number: _, slot } = ticket;
                self.undo(slot, flight);
                Ok(length)
            }
            Err(refusal) => Err(hand_back(refusal, ticket)),
        }
    }

    pub(super) fn take(&mut self, ticket: Ticket) -> Result<(), HandedBack<Ticket>>
        ensures does { DoesTaken self.old ticket result self.new }
        ensures handed_back { IfErr result (λ e. e.value ≡ ticket) }
    {
        if self.flight(&ticket).is_none() {
            return Err(hand_back(Refusal::UnknownTicket, ticket));
        }
        let Ticket { number: _, slot } = ticket;
        self.flights.close(slot);
        Ok(())
    }

    pub(super) fn set_aside(&mut self, ticket: Ticket) -> Result<u32, HandedBack<Ticket>>
        ensures does { DoesPark self.old ticket result self.new }
        ensures handed_back { IfErr result (λ e. e.value ≡ ticket) }
    {
        if self.flight(&ticket).is_none() {
            return Err(hand_back(Refusal::UnknownTicket, ticket));
        }
        let Ticket { number, slot } = ticket;
        self.flights.mark(slot, Mark::Parked);
        Ok(number)
    }

    pub(super) fn pick_up(&mut self, number: u32) -> Result<Ticket, Refusal>
        ensures does { DoesPick self.old number result self.new }
    {
        let slot = self
            .flights
            .find_parked(number)
            .ok_or(Refusal::UnknownTicket)?;
        self.flights.mark(slot, Mark::InHand);
        Ok(Ticket { number, slot })
    }

    pub(super) fn release(&mut self, session: PduSession) -> Result<(), Refusal>
        ensures does { DoesReleased self.old session result self.new }
    {
        if !self.store.remove(session) {
            return Err(Refusal::NoContext);
        }
        Ok(())
    }
}
