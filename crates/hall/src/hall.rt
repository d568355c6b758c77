// What a scenario has set up so far.
ghost use Rattle.std.specs.Prelude.{◌≡◌, map, is_some, IfOk, IfSome, Some, None, vec_items};
ghost use Rattle.control.specs.Lines.{rows_fit as control_rows_fit};
ghost use Rattle.names.specs.OwnNames.{lent_names};
ghost use Rattle.hall.specs.Asked.{wanted};
ghost use Rattle.hall.specs.Changes.{book, store, directory, serve, mark, control};
ghost use Rattle.hall.specs.Ends.{Accepted, outcome_of};
ghost use Rattle.hall.specs.Effects.{BookOutcome, opens, store_outcome, serve_outcome, mark_outcome, OutcomeFor, RowsAfter};
ghost use Rattle.hall.specs.Halls.{HallAfter, SameBook, SameStore, SameDirectory};

use crate::change::{Change, StoreKind};
use crate::directory::HallDirectory;
use crate::directory_kind::DirectoryKind;
use crate::directory_state::DirectoryState;
use crate::not_done::NotDone;
use control::ControlTable;
use directories::{ListDirectory, ServiceLine, TurningDirectory};
use flat::FlatStore;
use names::Book;
use std::alloc::{AllocError, Global};

#[derive(Drop)]
pub(crate) struct Hall {
    book: Option<Book>,
    store: Option<StoreKind>,
    directory: Option<HallDirectory>,
    // How many rows a new control table is to have. The table borrows its rows, so the stage has it.
    wanted_rows: Option<usize>,
}

// The names, lent.
fn lend<'a>(heap: Global, names: &'a [Vec<u8>]) -> Result<Vec<&'a [u8]>, AllocError>
    ensures { IfOk result (λ v. lent_names v.items ≡ map vec_items names.now) }
{
    names.iter().map(|name| name.as_slice()).collect(heap)
}

impl Hall {
    // Nothing is set up, and nothing is wanted.
    pub(crate) fn new() -> Hall
        ensures book { result.book ≡ None }
        ensures store { result.store ≡ None }
        ensures directory { result.directory ≡ None }
        ensures rows { result.wanted_rows ≡ None }
    {
        Hall {
            book: None,
            store: None,
            directory: None,
            wanted_rows: None,
        }
    }

    // How many rows the control table is to have that is wanted now, if one is.
    pub(crate) fn take_wanted_rows(&mut self) -> Option<usize>
        ensures taken { result ≡ self.old.wanted_rows }
        ensures left { self.new.wanted_rows ≡ None }
        ensures book { SameBook self.old self.new }
        ensures store { SameStore self.old self.new }
        ensures directory { SameDirectory self.old self.new }
    {
        self.wanted_rows.take()
    }

    pub(crate) fn book(&self) -> Option<&Book> {
        self.book.as_ref()
    }

    pub(crate) fn store(&self) -> Option<StoreKind> {
        self.store
    }

    pub(crate) fn directory_mut(&mut self) -> Option<&mut HallDirectory> {
        self.directory.as_mut()
    }

    fn make_book(&mut self, heap: Global, names: &[Vec<u8>]) -> Result<(), NotDone>
        ensures outcome { IfSome (outcome_of result) (λ o.
            BookOutcome (map vec_items names.now) o) }
        ensures hall { IfSome (outcome_of result) (λ o.
            HallAfter self.old (book (map vec_items names.now)) o self.new) }
    {
        let lent = lend(heap, names)?;
        self.book = Some(Book::new(heap, lent.as_slice())?);
        Ok(())
    }

    fn choose_store(&mut self, kind: StoreKind) -> Result<(), NotDone>
        ensures outcome { outcome_of result ≡ Some (store_outcome kind) }
        ensures hall { IfSome (outcome_of result) (λ o.
            HallAfter self.old (store kind) o self.new) }
    {
        if let StoreKind::Flat(rows) = kind {
            FlatStore::check_rows(rows)?;
        }
        self.store = Some(kind);
        Ok(())
    }

    fn make_directory(&mut self, heap: Global, kind: DirectoryKind)
        ensures { HallAfter self.old (directory kind) Accepted self.new }
    {
        self.directory = Some(match kind {
            DirectoryKind::List => HallDirectory::List(ListDirectory::new(heap)),
            DirectoryKind::Turning => HallDirectory::Turning(TurningDirectory::new(heap)),
        });
    }

    fn serve(&mut self, line: ServiceLine) -> Result<(), NotDone>
        ensures outcome { IfSome (outcome_of result) (λ o.
            o ≡ serve_outcome self.old.directory line) }
        ensures hall { IfSome (outcome_of result) (λ o.
            HallAfter self.old (serve line) o self.new) }
    {
        let directory = self.directory.as_mut().ok_or(NotDone::Misplaced)?;
        directory.add(line)?;
        Ok(())
    }

    fn mark(&mut self, state: DirectoryState) -> Result<(), NotDone>
        ensures outcome { outcome_of result ≡ Some (mark_outcome self.old.directory) }
        ensures hall { IfSome (outcome_of result) (λ o.
            HallAfter self.old (mark state) o self.new) }
    {
        match &mut self.directory {
            Some(HallDirectory::Turning(directory)) => {
                directory.mark(state.is_open());
                Ok(())
            }
            Some(HallDirectory::List(_)) | None => Err(NotDone::Misplaced),
        }
    }

    fn want_control(&mut self, rows: usize) -> Result<(), NotDone>
        ensures outcome { outcome_of result ≡ Some (opens (control_rows_fit rows)) }
        ensures hall { IfSome (outcome_of result) (λ o.
            HallAfter self.old (control rows) o self.new) }
    {
        ControlTable::check_rows(rows)?;
        self.wanted_rows = Some(rows);
        Ok(())
    }

    // Does what a command asks for, where it can be done.
    pub(crate) fn apply(
        &mut self,
        heap: Global,
        table: &mut ControlTable<'_>,
        change: &Change,
    ) -> Result<(), NotDone>
        ensures outcome { IfSome (outcome_of result) (λ o.
            OutcomeFor self.old.directory table.old (wanted change.now) o) }
        ensures hall { IfSome (outcome_of result) (λ o.
            HallAfter self.old (wanted change.now) o self.new) }
        ensures rows { IfSome (outcome_of result) (λ o.
            RowsAfter table.old (wanted change.now) o table.new) }
    {
        match change {
            Change::Book(names) => self.make_book(heap, names.as_slice())?,
            Change::Store(kind) => self.choose_store(*kind)?,
            Change::Directory(kind) => self.make_directory(heap, *kind),
            Change::Serve(line) => self.serve(*line)?,
            Change::Mark(state) => self.mark(*state)?,
            Change::Control(rows) => self.want_control(*rows)?,
            Change::Set(numbers, back_off) => table.set(*numbers, *back_off)?,
            Change::Clear(numbers) => table.clear(*numbers)?,
        }
        Ok(())
    }
}
