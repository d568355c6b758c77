// A table of rows that are lent to it, each found by its key.
ghost use Rattle.std.specs.Prelude.{◌≡◌, length};
ghost use Rattle.tables.specs.Rows.{AllFree, Apart};
ghost use Rattle.tables.specs.Tables.{Gets, Sets, Removes};

use crate::finding::{find_row, find_target, get_row};
use crate::row::Row;

/// A table over rows that are lent to it. No two in use have the same key.
#[derive(Drop)]
pub struct Table<'a, R: Row> {
    rows: &'a mut [R],
    // no two rows in use have the same key
    ghost apart: { Apart R.Row.free R.Row.named rows.now },
}

/// There is neither a row in use under the key nor a free one.
#[derive(Clone, Copy, Debug, PartialEq, Eq)]
pub struct TableFull;

impl<'a, R: Row> Table<'a, R> {
    /// A table over these rows, all of which are freed.
    pub fn new(rows: &'a mut [R]) -> Table<'a, R>
        ensures free { AllFree R.Row.free result.rows.now }
        ensures size { length result.rows.now ≡ length rows.old }
    {
        for row in rows.iter_mut() {
            row.clear();
        }
        Table { rows }
    }

    /// All the rows, free and in use.
    pub fn rows(&self) -> &[R]
        ensures { result.now ≡ self.now.rows.now }
    {
        &self.rows[..]
    }

    /// The row that is in use under the key. None where there is none.
    pub fn find(&self, key: &R::Key) -> Option<&R>
        ensures { Gets R.Row.free R.Row.named key.now self.now.rows.now result }
    {
        get_row(self.rows, key)
    }

    /// Replaces the row that is in use under the new row's key, or takes the first free one.
    /// `TableFull` where there is neither; then nothing changes.
    pub fn set(&mut self, row: R) -> Result<(), TableFull>
    where
        R: Drop,
        ensures { Sets R.Row.free R.Row.named row self.old.rows.now self.new.rows.now result }
    {
        let rows = &mut *self.rows;
        let i = find_target(rows, &row.key()).ok_or(TableFull)?;
        rows[i] = row;
        Ok(())
    }

    /// Frees the row that is in use under the key.
    /// False where there is none, and nothing changes: a bool, as the library's sets answer.
    pub fn remove(&mut self, key: &R::Key) -> bool
        ensures { Removes R.Row.free R.Row.named key.now self.old.rows.now self.new.rows.now result }
    {
        let rows = &mut *self.rows;
        let Some(i) = find_row(rows, key) else {
            return false;
        };
        rows[i].clear();
        true
    }
}
