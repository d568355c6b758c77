// The flat store: contexts in rows that the host hands in.
#![tactic(auto)]

mod context_row;
mod flat_store;
mod row_key;

pub use context_row::ContextRow;
pub use flat_store::{FlatStore, MAX_ROWS, MIN_ROWS};
