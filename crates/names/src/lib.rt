// DNN names: when two are the same, and the book that numbers them.
#![tactic(auto)]

mod book;
mod name;

pub use book::{Book, MAX_NAMES};
pub use name::{MAX_NAME, same_name};
