// The contexts of one UE: a place for each session.
ghost use Rattle.std.specs.Prelude.{◌≡◌, true, is_some, Some, None, MatchBool};
ghost use Rattle.std.specs.List.{find};
ghost use Rattle.std.proofs.Common.{rules};
ghost use Rattle.stores.specs.Contexts.{pair_fits, sessions};
ghost use Rattle.grid.specs.Held.{held_count};

use crate::place::Place;
use codes::{SessionId, UeNumber, is_session};
use stores::Context;
use tables::Row;

const PLACES: usize = 15;

// The places are an array, since a store takes no memory from a heap.
#[derive(Clone, Copy)]
pub struct UeRow {
    ue: UeNumber,
    // how many places are filled, so that a free row is told by one number
    held: u8,
    places: [Option<Place>; PLACES],
    ghost counted: { held ≡ held_count places },
}

impl UeRow {
    ghost use Rattle.grid.specs.Grids.{place_of, context_at, others_in, emergency_in, is_free, Writes};

    pub(crate) fn new() -> UeRow
        ensures { is_free result ≡ true }
    {
        UeRow {
            ue: 0,
            held: 0,
            places: [None; PLACES],
        }
    }

    pub(crate) fn context(&self, session: SessionId) -> Option<Context>
        ensures { result ≡ context_at self.now session }
    {
        if !is_session(session) {
            return None;
        }
        self.places[usize::from(session) - 1].map(|place| place.context(self.ue, session))
    }

    // How many sessions other than this one have a context: all that have one, less this one.
    #[tactic(auto, using(crate::proofs::Written::others_but, crate::proofs::Written::one_held))]
    pub(crate) fn count_others(&self, session: SessionId) -> usize
        ensures { result ≡ others_in self.now session }
    {
        usize::from(self.held) - usize::from(self.context(session).is_some())
    }

    fn has_other_emergency(&self, session: SessionId, other: SessionId) -> bool
        ensures { result ≡ emergency_in self.now session other }
    {
        other != session && self.context(other).is_some_and(|context| context.emergency)
    }

    // The lowest session other than this one that has an emergency context.
    pub(crate) fn lowest_other_emergency(&self, session: SessionId) -> Option<SessionId>
        ensures { result ≡ find (emergency_in self.now session) sessions }
    {
        (1..16).find(|&other| self.has_other_emergency(session, other))
    }

    // Replaces the context of its session or adds it.
    pub(crate) fn put(&mut self, context: Context)
        requires { pair_fits context.ue context.session ≡ true }
        ensures { Writes self.old self.new context.ue context.session (Some (place_of context)) }
    {
        self.held += u8::from(self.context(context.session).is_none());
        self.ue = context.ue;
        self.places[usize::from(context.session) - 1] = Some(Place::from(context));
    }

    // Leaves no context of the session. True where there was one.
    pub(crate) fn remove(&mut self, session: SessionId) -> bool
        ensures stood { result ≡ is_some (context_at self.old session) }
        ensures change { MatchBool result (Writes self.old self.new self.old.ue session None)
            (self.new ≡ self.old) }
    {
        if self.context(session).is_none() {
            return false;
        }
        self.held -= 1;
        self.places[usize::from(session) - 1] = None;
        true
    }
}

// A row serves any UE while no session of it has a context.
impl Row for UeRow {
    ghost use Rattle.grid.specs.Grids.{is_free, ue_of};

    type Key = UeNumber;

    ghost free = { λ x. is_free x };

    ghost named = { λ x. ue_of x };

    ghost exact = { Prim.search rules };

    #[tactic(auto, using(crate::proofs::Written::others_held))]
    fn is_free(&self) -> bool {
        self.held == 0
    }

    fn key(&self) -> UeNumber {
        self.ue
    }

    // The number first: few of the rows in use that are looked at are this UE's.
    #[tactic(auto, using(crate::proofs::Written::others_held))]
    fn is_under(&self, key: &UeNumber) -> bool {
        self.ue == *key && self.held > 0
    }

    fn clear(&mut self) {
        *self = UeRow::new();
    }
}
