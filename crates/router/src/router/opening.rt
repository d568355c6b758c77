// Opening a router, and ending it.
ghost use Rattle.std.specs.Prelude.{◌≡◌, IfOk, MatchResult, true};
ghost use Rattle.names.specs.Names.{GoodNames};
ghost use Rattle.router.specs.Openings.{opening, opening_fits, IsOpened, OpensIf, CopiesIf};
ghost use Rattle.router.specs.Views.{store_of};

use super::Router;
use crate::unopened::Unopened;
use codes::{Refusal, SetupError};
use flights::Flights;
use names::Book;
use records::Configuration;
use std::alloc::Global;
use stores::Store;

// A copy of the book, if a router can be opened.
fn copied<S: Store>(
    heap: Global,
    book: &Book,
    configuration: Configuration,
    first: u32,
    store: &S,
) -> Result<Book, SetupError>
    ensures names { IfOk result (λ b. b ≡ book.now) }
    ensures good { IfOk result (λ b. GoodNames b) }
    ensures fits { CopiesIf
        (opening_fits (opening book.now configuration first) (S.Store.contexts store.now)) result }
{
    configuration.check(book)?;
    if first == 0 || !store.is_empty() {
        return Err(SetupError::from(Refusal::Opening));
    }
    Ok(book.try_clone(heap)?)
}

impl<S: Store> Router<S> {
    // A router over an empty store, with a copy of the book.
    pub(super) fn begin(
        heap: Global,
        book: &Book,
        configuration: Configuration,
        first: u32,
        store: S,
    ) -> Result<Router<S>, Unopened<S>>
        ensures opened { IfOk result (IsOpened (opening book.now configuration first)) }
        ensures fits { OpensIf
            (opening_fits (opening book.now configuration first) (S.Store.contexts store)) result }
        ensures store { MatchResult result (λ r. store_of r ≡ store) (λ u. u.store ≡ store) }
    {
        match copied(heap, book, configuration, first, &store) {
            Ok(book) => Ok(Router {
                store,
                book,
                configuration,
                flights: Flights::new(),
                next: u64::from(first),
            }),
            Err(error) => Err(Unopened { error, store }),
        }
    }

    // The store that it owns.
    pub(super) fn close(self) -> S
        ensures { result ≡ store_of self }
    {
        let Router { store, .. } = self;
        store
    }
}
