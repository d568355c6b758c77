// The DNNs of one slice that one SMF serves.
ghost use Rattle.std.specs.Prelude.{◌≡◌, true};
ghost use Rattle.directories.specs.Lines.{numbered};
ghost use Rattle.directories.specs.Sets.{set_for, is_pair, with_dnn, set_of};

use crate::service_line::{ServiceLine, is_numbered};
use codes::{DnnNumber, SliceCode, SliceDnn, SmfId};

#[derive(Clone, Copy)]
pub(crate) struct ServedSet {
    pub slice: SliceCode,
    pub smf: SmfId,
    // DNN number 1 is the first. An array, since there are just 64 of them.
    pub numbers: [bool; 64],
}

impl ServedSet {
    // The set of the line's slice and SMF, with its DNN alone. No `From`, since it asks for a good
    // line.
    pub(crate) fn of(line: ServiceLine) -> ServedSet
        requires { numbered line.dnn ≡ true }
        ensures { result ≡ set_of line }
    {
        let mut set = ServedSet {
            slice: line.slice,
            smf: line.smf,
            numbers: [false; 64],
        };
        set.add(line.dnn);
        set
    }

    // A DNN more, which may be there.
    pub(crate) fn add(&mut self, dnn: DnnNumber)
        requires { numbered dnn ≡ true }
        ensures { self.new ≡ with_dnn self.old dnn }
    {
        self.numbers[usize::from(dnn - 1)] = true;
    }

    // Whether this is the set of the line's slice and SMF.
    pub(crate) fn is_of(&self, line: ServiceLine) -> bool
        ensures { result ≡ is_pair self.now line.slice line.smf }
    {
        self.slice == line.slice && self.smf == line.smf
    }

    // Whether the SMF serves the slice and DNN by this set.
    pub(crate) fn is_for(&self, wanted: SliceDnn) -> bool
        ensures { result ≡ set_for self.now wanted.slice wanted.dnn }
    {
        self.slice == wanted.slice
            && is_numbered(wanted.dnn)
            && self.numbers[usize::from(wanted.dnn - 1)]
    }
}
