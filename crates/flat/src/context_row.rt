// A row of the flat store: a context in bounds, or nothing.
ghost use Rattle.std.specs.Prelude.{◌≡◌, true, false, Some, None, MatchResult};
ghost use Rattle.stores.specs.Contexts.{fits, in_bounds};
ghost use Rattle.flat.specs.Held.{held_other, held_emergency};

use codes::SessionId;
use stores::{Context, NoRoom, PduSession};

/// A row of a flat store, which the host lends: a context in bounds, or nothing.
// One type with a control table's row would be no plainer: its context would need a type of its own.
#[derive(Clone, Copy)]
pub struct ContextRow {
    pub(crate) held: Option<Context>,
    ghost bounded: { in_bounds held ≡ true },
}

impl ContextRow {
    /// A free row.
    pub fn free() -> ContextRow
        ensures { result.held ≡ None }
    {
        ContextRow { held: None }
    }

    // Whether its context is of another session of the UE.
    pub(crate) fn is_other(&self, session: PduSession) -> bool
        ensures { result ≡ held_other session.ue session.id self.now.held }
    {
        self.held.is_some_and(|context| context.ue == session.ue && context.session != session.id)
    }

    // The session of its context, if that is an emergency context of another session of the UE.
    pub(crate) fn other_emergency(&self, session: PduSession) -> Option<SessionId>
        ensures { result ≡ held_emergency session.ue session.id self.now.held }
    {
        let context = self.held?;
        (context.emergency && self.is_other(session)).then_some(context.session)
    }
}

// A context that no store can have gets no row.
impl TryFrom<Context> for ContextRow {
    type Error = NoRoom;

    ghost try_from_gives = { λ context r.
        MatchResult r (λ x. (fits context ≡ true) × (x.held ≡ Some context))
        (λ _. fits context ≡ false) };

    fn try_from(context: Context) -> Result<ContextRow, NoRoom> {
        if !context.is_in_bounds() {
            return Err(NoRoom);
        }
        Ok(ContextRow {
            held: Some(context),
        })
    }
}
