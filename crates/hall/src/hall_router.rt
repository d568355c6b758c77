// The router that a scenario has opened, over a store of the kind that was wanted, or none yet.
ghost use Rattle.std.specs.Prelude.{◌≡◌, IfOk, MatchResult, string_bytes, true};
ghost use Rattle.hall.specs.Calls.{called};
ghost use Rattle.hall.specs.Replies.{Replies};
ghost use Rattle.router.specs.Openings.{opening as asked, opening_fits, NotOpened};

use crate::call::Call;
use crate::call_line::call_line;
use crate::change::StoreKind;
use crate::hall::Hall;
use crate::not_done::NotDone;
use crate::opening::Opening;
use crate::stage::Stage;
use bumpalo::Bump;
use codes::SetupError;
use flat::{ContextRow, FlatStore};
use grid::GridStore;
use hosts::Host;
use names::Book;
use router::Router;
use std::alloc::Global;
use stores::Store;

// It has no `Drop`, as a host has none: `end` gives its tickets back.
pub(crate) enum HallRouter<'a> {
    /// None is open yet, so that every call comes too early.
    Closed,
    Flat(Host<FlatStore<'a>>),
    Grid(Host<GridStore>),
}

// An empty store over so many rows.
fn make_flat<'a>(space: &'a Bump, rows: usize) -> Result<FlatStore<'a>, SetupError> {
    let free = [ContextRow::free(); 256];
    let rows = space.try_alloc_slice_copy(&free[..rows.min(256)])?;
    match FlatStore::new(rows) {
        Ok(store) => Ok(store),
        Err(handed_back) => Err(handed_back.refusal.into()),
    }
}

// A host of a new router over this store.
fn open_host<S: Store + Drop>(
    heap: Global,
    book: &Book,
    opening: Opening,
    store: S,
) -> Result<Host<S>, SetupError>
    ensures { let o = asked book.now opening.configuration opening.first in
        let fits = opening_fits o (S.Store.contexts store) in
        MatchResult result (λ _. fits ≡ true) (λ e. NotOpened fits e) }
{
    let router = Router::open(heap, book, opening.configuration, opening.first, store)?;
    Ok(Host::new(heap, router)?)
}

impl<'a> HallRouter<'a> {
    // A router over a copy of the book and a new store: it is misplaced before these are there. The rows
    // of a flat store stand in `space`.
    pub(crate) fn open(
        heap: Global,
        space: &'a Bump,
        hall: &Hall,
        opening: Opening,
    ) -> Result<HallRouter<'a>, NotDone> {
        let book = hall.book().ok_or(NotDone::Misplaced)?;
        match hall.store().ok_or(NotDone::Misplaced)? {
            StoreKind::Flat(rows) => {
                let store = make_flat(space, rows)?;
                Ok(HallRouter::Flat(open_host(heap, book, opening, store)?))
            }
            StoreKind::Grid => {
                let store = GridStore::new();
                Ok(HallRouter::Grid(open_host(heap, book, opening, store)?))
            }
        }
    }

    // Asks the router, and gives the line of an accepted call.
    pub(crate) fn ask(&mut self, stage: &mut Stage<'_>, call: &Call) -> Result<String, NotDone>
        ensures { IfOk result (λ s. Replies (called call.now) (string_bytes s)) }
    {
        match self {
            HallRouter::Closed => Err(NotDone::Misplaced),
            HallRouter::Flat(host) => call_line(stage, host, call),
            HallRouter::Grid(host) => call_line(stage, host, call),
        }
    }

    // Gives the tickets back that are held, and lets the router and its store go.
    pub(crate) fn end(self) {
        match self {
            HallRouter::Closed => {}
            HallRouter::Flat(host) => {
                host.end();
            }
            HallRouter::Grid(host) => {
                host.end();
            }
        }
    }
}
