// Tables of rows that are found by a key: one way to find every kind of row, and a table over lent rows.
#![tactic(auto)]

mod finding;
mod row;
mod table;

pub use finding::{all_free, find_free, find_row, find_target, get_row};
pub use row::Row;
pub use table::{Table, TableFull};
