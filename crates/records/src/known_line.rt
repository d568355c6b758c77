// Known lines.
ghost use Rattle.std.specs.Prelude.{◌≡◌, length};
ghost use Rattle.records.specs.Records.{known_fits};

use crate::numbering::has_number;
use codes::{DnnNumber, SessionId, SmfId, is_session};
use names::Book;

/// A PDU session of a UE that exists elsewhere, as the subscription data tell: the SMF that has it.
#[derive(Clone, Copy)]
pub struct KnownLine {
    pub session: SessionId,
    pub dnn: DnnNumber,
    pub smf: SmfId,
}

impl KnownLine {
    pub(crate) fn is_in_bounds(&self, book: &Book) -> bool
        ensures { result ≡ known_fits (length book.now) self.now }
    {
        is_session(self.session) && has_number(book, self.dnn) && self.smf > 0
    }
}
