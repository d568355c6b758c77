// Finding a row among rows of any kind.
ghost use Rattle.tables.specs.Rows.{Finds, FindsFree, FindsTarget, AllFree};
ghost use Rattle.tables.specs.Tables.{Gets};
ghost use Rattle.std.specs.Prelude.{Decides};

use crate::row::Row;

/// Where the first row is that is in use and has the key. None where there is none.
pub fn find_row<R: Row>(rows: &[R], key: &R::Key) -> Option<usize>
    ensures { Finds R.Row.free R.Row.named key.now rows.now result }
{
    rows.iter().position(|row| row.is_under(key))
}

/// The first row that is in use and has the key. None where there is none.
pub fn get_row<'a, R: Row>(rows: &'a [R], key: &R::Key) -> Option<&'a R>
    ensures { Gets R.Row.free R.Row.named key.now rows.now result }
{
    find_row(rows, key).map(|i| &rows[i])
}

/// Where the first free row is. None where no row is free.
pub fn find_free<R: Row>(rows: &[R]) -> Option<usize>
    ensures { FindsFree R.Row.free rows.now result }
{
    rows.iter().position(|row| row.is_free())
}

/// Where a row under the key is to be written: at the first that is in use and has it,
/// or else at the first free one. None where there is neither.
pub fn find_target<R: Row>(rows: &[R], key: &R::Key) -> Option<usize>
    ensures { FindsTarget R.Row.free R.Row.named key.now rows.now result }
{
    find_row(rows, key).or_else(|| find_free(rows))
}

/// Whether every row is free.
pub fn all_free<R: Row>(rows: &[R]) -> bool
    ensures { Decides result (AllFree R.Row.free rows.now) }
{
    rows.iter().all(|row| row.is_free())
}
