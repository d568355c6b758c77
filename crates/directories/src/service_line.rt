// Service lines.
ghost use Rattle.std.specs.Prelude.{◌≡◌};
ghost use Rattle.directories.specs.Lines.{good_line, line_for, numbered};

use codes::{DnnNumber, SliceCode, SliceDnn, SmfId};

// Whether a DNN has a number in the book: 0 stands for none.
pub(crate) fn is_numbered(dnn: DnnNumber) -> bool
    ensures { result ≡ numbered dnn }
{
    (1..=64).contains(&dnn)
}

/// One SMF that serves a slice and a DNN.
// Plain fields, as each is read by itself: a nested `SliceDnn` would only lengthen that.
#[derive(Clone, Copy)]
pub struct ServiceLine {
    /// The S-NSSAI by its code.
    pub slice: SliceCode,
    /// The DNN by its number, of which a directory takes 1 to 64.
    pub dnn: DnnNumber,
    /// The SMF by its ID, of which a directory takes 1 to 255.
    pub smf: SmfId,
}

impl ServiceLine {
    // Whether a directory can have this line.
    pub(crate) fn is_good(&self) -> bool
        ensures { result ≡ good_line self.now }
    {
        is_numbered(self.dnn) && self.smf > 0
    }

    // Whether this line is one for the slice and DNN.
    pub(crate) fn is_for(&self, wanted: SliceDnn) -> bool
        ensures { result ≡ line_for self.now wanted.slice wanted.dnn }
    {
        self.slice == wanted.slice && self.dnn == wanted.dnn
    }
}
