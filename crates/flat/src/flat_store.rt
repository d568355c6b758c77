// A store of contexts in rows that are lent to it, one row for each.
ghost use Rattle.std.specs.Prelude.{◌≡◌, ◌≤◌, Ok, if◌then◌else◌, [], length, is_ok, IfOk, IfErr};
ghost use Rattle.codes.specs.Refusals.{refusal_number, refuse, numbered};
ghost use Rattle.codes.specs.declared.refusal.Refusal.TheVariants.{Opening};
ghost use Rattle.std.specs.Iterator.{IsFinite, PicksByCmp};
ghost use Rattle.std.specs.Ordering.{min_by_ordering, nat_cmp};
ghost use Rattle.tables.specs.Tables.{Gets, Removes};
ghost use Rattle.flat.specs.declared.flat_store.TheConstants.{MIN_ROWS};
ghost use Rattle.flat.specs.Flat.{is_free, pair_of, held_in, room_in};
ghost use Rattle.flat.specs.Held.{rows_fit};
ghost use Rattle.flat.specs.Laws.{laws_of};

use crate::context_row::ContextRow;
use codes::{HandedBack, Refusal, SessionId};
use stores::{Context, NoRoom, PduSession, Store};
use tables::{Table, all_free, find_target};

/// The fewest rows of a flat store.
pub const MIN_ROWS: usize = 16;

/// The most rows of a flat store.
pub const MAX_ROWS: usize = 256;

/// A store of contexts in rows that are lent to it, one row for each.
#[derive(Drop)]
pub struct FlatStore<'a> {
    table: Table<'a, ContextRow>,
    ghost enough: { «MIN_ROWS» ≤ length table.rows.now },
}

// The lowest of some sessions.
// This, `remove_row` and `row` stand alone so that a wrong one is refused by its own contract.
fn lowest<I: Iterator<Item = SessionId> + Drop>(sessions: I) -> Option<SessionId>
    requires can { I.can_next sessions }
    requires ends { IsFinite (I.remaining sessions) }
    ensures { PicksByCmp I.next_gives min_by_ordering nat_cmp sessions result }
{
    sessions.min()
}

// Frees the row of the session. False where there is none.
fn remove_row(table: &mut Table<'_, ContextRow>, session: PduSession) -> bool
    ensures { Removes is_free pair_of session table.old.rows.now table.new.rows.now result }
{
    table.remove(&session)
}

impl<'a> FlatStore<'a> {
    /// Whether a store can have so many rows: from `MIN_ROWS` to `MAX_ROWS`.
    /// Others are refused, as all that is opened out of bounds.
    pub fn check_rows(count: usize) -> Result<(), Refusal>
        ensures { numbered result ≡ (if rows_fit count then Ok tt else refuse Opening) }
    {
        if !(MIN_ROWS..=MAX_ROWS).contains(&count) {
            return Err(Refusal::Opening);
        }
        Ok(())
    }

    /// An empty store over rows, `MIN_ROWS` to `MAX_ROWS` of them, which are freed.
    /// Others are refused, as all that is opened out of bounds, and handed back as they were.
    #[tactic(auto, using(crate::proofs::Tells::none_held))]
    pub fn new(
        rows: &'a mut [ContextRow],
    ) -> Result<FlatStore<'a>, HandedBack<&'a mut [ContextRow]>>
        ensures fit { is_ok result ≡ rows_fit (length rows.old) }
        ensures empty { IfOk result (λ s. held_in s.table.rows.now ≡ []) }
        ensures size { IfOk result (λ s. length s.table.rows.now ≡ length rows.old) }
        ensures refused { IfErr result (λ h. refusal_number h.refusal ≡ refusal_number Opening) }
        ensures handed_back { IfErr result (λ h. h.value ≡ rows.entry) }
    {
        if let Err(refusal) = FlatStore::check_rows(rows.len()) {
            return Err(HandedBack {
                refusal,
                value: rows,
            });
        }
        let table = Table::new(rows);
        Ok(FlatStore { table })
    }

    // The row of the session.
    fn row(&self, session: PduSession) -> Option<&ContextRow>
        ensures { Gets is_free pair_of session self.now.table.rows.now result }
    {
        self.table.find(&session)
    }
}

impl<'a> Store for FlatStore<'a> {
    ghost contexts = { λ s. held_in s.table.rows.now };

    ghost floor = { λ s. length s.table.rows.now };

    ghost room = { λ s u k. room_in s.table.rows.now u k };

    ghost laws = { λ s. laws_of s.table.rows.now s.table.apart s.enough };

    fn floor(&self) -> usize {
        self.table.rows().len()
    }

    #[tactic(auto, using(crate::proofs::Tells::none_found))]
    fn find(&self, session: PduSession) -> Option<Context> {
        self.row(session)?.held
    }

    #[tactic(auto, using(crate::proofs::Tells::room_told))]
    fn has_room(&self, session: PduSession) -> bool {
        session.is_in_bounds() && find_target(self.table.rows(), &session).is_some()
    }

    #[tactic(auto, using(crate::proofs::Tells::empty_told))]
    fn is_empty(&self) -> bool {
        all_free(self.table.rows())
    }

    #[tactic(auto, using(crate::proofs::Tells::others_counted))]
    fn count_others(&self, session: PduSession) -> usize {
        self.table
            .rows()
            .iter()
            .filter(|row| row.is_other(session))
            .count()
    }

    fn lowest_other_emergency(&self, session: PduSession) -> Option<SessionId> {
        let rows = self.table.rows();
        lowest(rows.iter().filter_map(|row| row.other_emergency(session)))
    }

    fn put(&mut self, context: Context) -> Result<(), NoRoom> {
        let row = ContextRow::try_from(context)?;
        self.table.set(row).or(Err(NoRoom))
    }

    fn remove(&mut self, session: PduSession) -> bool {
        remove_row(&mut self.table, session)
    }
}
