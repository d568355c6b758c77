// A store that keeps the contexts in rows of one UE each, a place for each session.
#![tactic(auto)]

mod grid_store;
mod place;
mod ue_row;

pub use grid_store::GridStore;
