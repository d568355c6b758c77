// A DNN in a slice.
use crate::ids::{DnnNumber, SliceCode};

/// A DNN in a slice, which is what an SMF serves and what congestion control names.
#[derive(Clone, Copy, Debug, PartialEq, Eq)]
pub struct SliceDnn {
    pub slice: SliceCode,
    pub dnn: DnnNumber,
}
