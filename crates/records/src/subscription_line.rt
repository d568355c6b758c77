// Subscription lines.
use codes::{DnnNumber, SliceCode};

/// What a UE has subscribed in a slice.
#[derive(Clone, Copy)]
pub struct SubscriptionLine {
    pub slice: SliceCode,
    pub dnn: DnnNumber,
    /// The slice is one to be used where a message names none.
    pub default_slice: bool,
    /// The DNN is the one to be used in the slice where a message names none.
    pub default_dnn: bool,
    /// A PDU session of the slice may be moved here.
    pub allowed: bool,
}
