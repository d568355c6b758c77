// What a message asked for and what it goes by, as the lines of a receive say it.
ghost use Rattle.std.specs.Prelude.{Some};
ghost use Rattle.hall.specs.Replies.{used_text};

use hosts::Reply;
use printing::{OrAbsent, Slice};
use std::fmt;

#[derive(Clone, Copy)]
pub(crate) struct Used<'a>(pub(crate) &'a Reply);

impl fmt::Display for Used<'_> {
    ghost output = { λ u. Some (used_text u.0.now) };

    fn fmt<W: fmt::Write>(&self, f: &mut fmt::Formatter<W>) -> fmt::Result {
        let old = OrAbsent(self.0.old_session);
        let request = OrAbsent(self.0.request_type.map(u8::from));
        let slice = Slice(self.0.verdict.used.slice);
        let dnn = self.0.verdict.used.dnn;
        let release = OrAbsent(self.0.verdict.release);
        write!(
            f,
            "old {old} request {request} slice {slice} dnn {dnn} release {release}"
        )
    }
}
