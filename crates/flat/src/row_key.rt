// The key of a row in the flat store: the session whose context it has.
ghost use Rattle.std.proofs.Common.{rules};
ghost use Rattle.flat.specs.Flat.{is_free, pair_of};

use crate::context_row::ContextRow;
use stores::PduSession;
use tables::Row;

impl Row for ContextRow {
    type Key = PduSession;

    ghost free = { λ x. is_free x };

    ghost named = { λ x. pair_of x };

    ghost exact = { Prim.search rules };

    fn is_free(&self) -> bool {
        self.held.is_none()
    }

    // A table asks a free row, too, for a key: that of no session.
    fn key(&self) -> PduSession {
        self.held.map_or(PduSession { ue: 0, id: 0 }, |context| context.pdu_session())
    }

    fn clear(&mut self) {
        self.held = None;
    }
}
