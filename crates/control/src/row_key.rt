// A control row is found by the key of its line.
ghost use Rattle.std.proofs.Common.{rules};
ghost use Rattle.control.specs.Lines.{is_free, key_of};

use crate::control_key::ControlKey;
use crate::control_row::ControlRow;
use tables::Row;

impl Row for ControlRow {
    type Key = ControlKey;

    ghost free = { λ x. is_free x };

    ghost named = { λ x. key_of x };

    fn is_free(&self) -> bool {
        self.held.is_none()
    }

    // A free row has a key as well, which nothing is found by: `Table::set` asks any row for one.
    fn key(&self) -> ControlKey {
        self.held.map_or(ControlKey::Dnn(0), |line| line.key)
    }

    fn clear(&mut self) {
        self.held = None;
    }

    ghost exact = { Prim.search rules };
}
