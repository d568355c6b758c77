// All flights.
ghost use Rattle.std.specs.Prelude.{◌≡◌, ◌<◌, length, IfSome, is_some, nat_lt, None, replicate, slice_set, Some};
ghost use Rattle.std.specs.List.{count_by, list_any, position};
ghost use Rattle.flights.specs.Slots.{at, is_free, is_for, is_parked, in_hand, marked};

use crate::flight::{Flight, Mark};
use stores::PduSession;

/// How many slots the pool has, and so how many payloads may be in flight.
pub const SLOTS: usize = 16;

/// The flights, each in the slot that has its octets.
#[derive(Drop)]
pub struct Flights {
    slots: [Option<Flight>; SLOTS],
}

impl Flights {
    /// None is in flight.
    pub fn new() -> Flights
        ensures { result.slots ≡ replicate SLOTS None }
    {
        Flights {
            slots: [None; SLOTS],
        }
    }

    /// Whether a payload of the session is in flight.
    pub fn has(&self, session: PduSession) -> bool
        ensures { result ≡ list_any (is_for session.ue session.id) self.now.slots }
    {
        self.slots.iter().any(|slot| {
            slot.is_some_and(|flight| flight.ue == session.ue && flight.session == session.id)
        })
    }

    fn first_free(&self) -> Option<usize>
        ensures { result ≡ position is_free self.now.slots }
    {
        self.slots.iter().position(|slot| slot.is_none())
    }

    /// The first slot that is free. There is one exactly while fewer flights stand than there are
    /// slots.
    #[tactic(auto, using(crate::proofs::Spare::spare, crate::proofs::Spare::free))]
    pub fn free_slot(&self) -> Option<usize>
        ensures value { result ≡ position is_free self.now.slots }
        ensures spare { is_some result ≡ nat_lt (count_by is_some self.now.slots) SLOTS }
        ensures free { IfSome result (λ k. (k < SLOTS) × (at self.now.slots k ≡ None)) }
    {
        self.first_free()
    }

    /// The slot of the flight that is parked under this number.
    pub fn find_parked(&self, number: u32) -> Option<usize>
        ensures value { result ≡ position (is_parked number) self.now.slots }
        ensures slot { IfSome result (λ k. k < SLOTS) }
    {
        self.slots.iter().position(|slot| {
            slot.is_some_and(|flight| flight.mark == Mark::Parked && flight.number == number)
        })
    }

    /// The flight of this number, if it stands in this slot and its ticket is in hand.
    pub fn in_hand(&self, number: u32, slot: usize) -> Option<Flight>
        ensures value { result ≡ in_hand self.now.slots number slot }
        ensures slot { IfSome result (λ _. slot < SLOTS) }
    {
        let flight = *self.slots.get(slot)?;
        flight.filter(|flight| flight.mark == Mark::InHand && flight.number == number)
    }

    /// The slot has this flight. There is no slot past the last one: such a call changes nothing.
    pub fn open(&mut self, slot: usize, flight: Flight)
        ensures slots { self.new.slots ≡ slice_set self.old.slots slot (Some flight) }
        ensures count { length self.old.slots ≡ SLOTS }
    {
        if slot < self.slots.len() {
            self.slots[slot] = Some(flight);
        }
    }

    /// The slot is free.
    pub fn close(&mut self, slot: usize)
        ensures { self.new.slots ≡ slice_set self.old.slots slot None }
    {
        if slot < self.slots.len() {
            self.slots[slot] = None;
        }
    }

    /// The flight in the slot, if there is one, has this mark.
    pub fn mark(&mut self, slot: usize, mark: Mark)
        ensures { self.new.slots ≡
            slice_set self.old.slots slot (marked mark (at self.old.slots slot)) }
    {
        if slot >= self.slots.len() {
            return;
        }
        if let Some(flight) = &mut self.slots[slot] {
            flight.set_mark(mark);
        }
    }
}
