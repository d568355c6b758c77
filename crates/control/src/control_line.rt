// A control line: what it is about, and how long to stay away.
ghost use Rattle.std.specs.Prelude.{◌<◌};

use crate::control_key::ControlKey;

#[derive(Clone, Copy)]
pub struct ControlLine {
    pub key: ControlKey,
    pub back_off: u8,
    // back-off is one octet
    ghost octet: { back_off < 256 },
}
