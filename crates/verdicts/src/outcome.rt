// Outcomes of the rules.
use crate::decision::Decision;

/// What the rules say of a payload, before any directory is asked.
#[derive(Clone, Copy)]
pub enum Outcome {
    Settled(Decision),
    /// A directory has to choose.
    Choose { emergency: bool },
}
