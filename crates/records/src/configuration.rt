// Configurations.
ghost use Rattle.std.specs.Prelude.{◌≡◌, length, Ok, if◌then◌else◌};
ghost use Rattle.codes.specs.declared.refusal.Refusal.TheVariants.{Opening};
ghost use Rattle.codes.specs.Refusals.{numbered, refuse};
ghost use Rattle.records.specs.Configurations.{configuration_fits, emergency_smf};

use crate::numbering::has_number;
use codes::{Refusal, SliceDnn, SmfId};
use names::Book;

/// What a router is told of its core when it is opened.
#[derive(Clone, Copy)]
pub struct Configuration {
    /// The slice and the DNN for whoever names none and has subscribed none as default.
    pub default: SliceDnn,
    /// The slice and the DNN of emergency sessions.
    pub emergency: SliceDnn,
    /// The SMF of emergency sessions, or 0 where there is none.
    pub static_emergency_smf: SmfId,
}

impl Configuration {
    /// Refuses a configuration that names a DNN which is not in the book, as an opening that is out
    /// of bounds.
    pub fn check(&self, book: &Book) -> Result<(), Refusal>
        ensures { numbered result ≡
            (if configuration_fits (length book.now) self.now then Ok tt else refuse Opening) }
    {
        if !(has_number(book, self.default.dnn) && has_number(book, self.emergency.dnn)) {
            return Err(Refusal::Opening);
        }
        Ok(())
    }

    /// The static emergency SMF, where there is one.
    pub fn emergency_smf(&self) -> Option<SmfId>
        ensures { result ≡ emergency_smf self.now }
    {
        Some(self.static_emergency_smf).filter(|smf| *smf > 0)
    }
}
