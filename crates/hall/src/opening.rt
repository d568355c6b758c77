// What a router is to be opened with, besides the book and the store.
use records::Configuration;

#[derive(Clone, Copy)]
pub(crate) struct Opening {
    pub(crate) configuration: Configuration,
    /// The first ticket number.
    pub(crate) first: u32,
}
