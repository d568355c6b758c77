// A row of a control table: a control line, or nothing.
ghost use Rattle.std.specs.Prelude.{◌≡◌, None};
ghost use Rattle.control.specs.Octets.{Holds, octet_of};

use crate::control_key::ControlKey;
use crate::control_line::ControlLine;

/// A row of a control table, which the host lends.
#[derive(Clone, Copy)]
pub struct ControlRow {
    pub(crate) held: Option<ControlLine>,
}

impl ControlRow {
    /// A free row.
    pub fn free() -> ControlRow
        ensures { result.held ≡ None }
    {
        ControlRow { held: None }
    }

    // A row with the line of this key.
    pub(crate) fn of(key: ControlKey, back_off: u8) -> ControlRow
        ensures { Holds key back_off result.held }
    {
        ControlRow {
            held: Some(ControlLine { key, back_off }),
        }
    }

    // The back-off octet of its line.
    pub(crate) fn back_off(&self) -> Option<u8>
        ensures { result ≡ octet_of self.now.held }
    {
        self.held.map(|line| line.back_off)
    }
}
