// Contexts in 32 rows: a row is one UE's until its last context is removed, and then serves any UE.
ghost use Rattle.std.specs.Prelude.{◌≡◌, ℕ, true, [], length};
ghost use Rattle.tables.specs.Rows.{Apart, Finds};
ghost use Rattle.tables.specs.Tables.{Gets};
ghost use Rattle.stores.specs.Contexts.{in_bounds, lookup};
ghost use Rattle.grid.specs.Grids.{is_free, ue_of, contexts_in, room_in};
ghost use Rattle.grid.specs.declared.grid_store.TheConstants.{ROWS};
ghost use Rattle.grid.specs.Laws.{laws_of};

use crate::ue_row::UeRow;
use codes::{SessionId, UeNumber};
use stores::{Context, NoRoom, PduSession, Store};
use tables::{all_free, find_row, find_target, get_row};

const ROWS: usize = 32;

/// A store of 32 rows of its own: each is one UE's while that has a context in it, and has a place
/// for each of 15 sessions.
// No UE has two rows in use, and no context is out of bounds.
// The rows are an array, since a store takes no memory from a heap.
#[derive(Drop)]
pub struct GridStore {
    rows: [UeRow; ROWS],
    ghost size: { length rows ≡ «ROWS» },
    ghost apart: { Apart is_free ue_of rows },
    ghost bounds: { (u k : ℕ) → in_bounds (lookup (contexts_in rows) u k) ≡ true },
}

impl GridStore {
    /// An empty store.
    pub fn new() -> GridStore
        ensures { contexts_in result.rows ≡ [] }
    {
        GridStore {
            rows: [UeRow::new(); ROWS],
        }
    }

    // Where the UE's row is.
    fn index_of(&self, ue: UeNumber) -> Option<usize>
        ensures { Finds is_free ue_of ue self.now.rows result }
    {
        find_row(&self.rows, &ue)
    }

    // The UE's row.
    fn row_of(&self, ue: UeNumber) -> Option<&UeRow>
        ensures { Gets is_free ue_of ue self.now.rows result }
    {
        get_row(&self.rows, &ue)
    }
}

impl Store for GridStore {
    ghost contexts = { λ s. contexts_in s.rows };

    ghost floor = { λ s. «ROWS» };

    ghost room = { λ s u k. room_in s.rows u k };

    ghost laws = { λ s. laws_of s.rows
        (record { size = s.size; apart = s.apart; bounds = s.bounds }) };

    fn floor(&self) -> usize {
        self.rows.len()
    }

    fn find(&self, session: PduSession) -> Option<Context> {
        self.row_of(session.ue)?.context(session.id)
    }

    #[tactic(auto, using(crate::proofs::Rooms::room_is))]
    fn has_room(&self, session: PduSession) -> bool {
        session.is_in_bounds() && find_target(&self.rows, &session.ue).is_some()
    }

    fn is_empty(&self) -> bool {
        all_free(&self.rows)
    }

    fn count_others(&self, session: PduSession) -> usize {
        self.row_of(session.ue)
            .map_or(0, |row| row.count_others(session.id))
    }

    fn lowest_other_emergency(&self, session: PduSession) -> Option<SessionId> {
        self.row_of(session.ue)?.lowest_other_emergency(session.id)
    }

    fn put(&mut self, context: Context) -> Result<(), NoRoom> {
        if !context.is_in_bounds() {
            return Err(NoRoom);
        }
        let i = find_target(&self.rows, &context.ue).ok_or(NoRoom)?;
        let rows = &mut self.rows[..];
        rows[i].put(context);
        Ok(())
    }

    fn remove(&mut self, session: PduSession) -> bool {
        let Some(i) = self.index_of(session.ue) else {
            return false;
        };
        let rows = &mut self.rows[..];
        rows[i].remove(session.id)
    }
}
