/// Why a directory names no SMF.
#[derive(Clone, Copy, Debug, PartialEq, Eq)]
pub enum NoSmf {
    /// The directory is closed.
    Closed,
    /// The directory is open, and no SMF serves the slice and DNN.
    NoneServes,
}
