// What keeps contexts, at most one for each session of each UE.
ghost use Rattle.std.specs.Prelude.{◌≡◌, ℕ, Bool, ◌&&◌, List, length, is_ok, ◌==◌};
ghost use Rattle.stores.specs.declared.context.Context.{Context};
ghost use Rattle.stores.specs.Contexts.{lookup, fits, others_of, lowest_emergency, Lowest, emergency_at};
ghost use Rattle.stores.specs.Stores.{Laws, Puts, Removes};

use crate::context::Context;
use crate::no_room::NoRoom;
use crate::pdu_session::PduSession;
use codes::SessionId;

/// What keeps contexts, known only by its meaning: the contexts, the floor and the room.
/// Only `put` and `remove` change it, and they leave other sessions as they were.
pub trait Store {
    // the contexts, in no order that means anything
    ghost contexts: { Self → List Context };

    // so many contexts there is room for, whichever they are
    ghost floor: { Self → ℕ };

    // whether there is room for this session of this UE
    ghost room: { Self → ℕ → ℕ → Bool };

    /// For so many contexts, at least, there is room, whichever they are.
    fn floor(&self) -> usize
        ensures { result ≡ floor self.now };

    /// The context of the session, if it has one.
    fn find(&self, session: PduSession) -> Option<Context>
        ensures { result ≡ lookup (contexts self.now) session.ue session.id };

    /// Whether a context of the session can be put.
    fn has_room(&self, session: PduSession) -> bool
        ensures { result ≡ room self.now session.ue session.id };

    /// Whether no context stands.
    fn is_empty(&self) -> bool
        ensures { result ≡ (length (contexts self.now) == 0) };

    /// How many other sessions of the UE have a context.
    fn count_others(&self, session: PduSession) -> usize
        ensures { result ≡ others_of (contexts self.now) session.ue session.id };

    /// The lowest other session of the UE that has an emergency context.
    fn lowest_other_emergency(&self, session: PduSession) -> Option<SessionId>
        ensures value { result ≡ lowest_emergency (contexts self.now) session.ue session.id }
        ensures lowest { Lowest (emergency_at (contexts self.now) session.ue session.id) result };

    /// Replaces the context of its session or adds it.
    /// `NoRoom` where it is out of bounds or there is no room; then nothing changes.
    fn put(&mut self, context: Context) -> Result<(), NoRoom>
        ensures room { is_ok result ≡ (fits context && room self.old context.ue context.session) }
        ensures puts { Puts context (contexts self.old) (contexts self.new)
            (room self.old) (room self.new) result }
        ensures floor { floor self.new ≡ floor self.old };

    /// Leaves no context of the session.
    /// True where there was one: a bool, as the library's sets answer.
    fn remove(&mut self, session: PduSession) -> bool
        ensures removes { Removes session.ue session.id (contexts self.old) (contexts self.new)
            (room self.old) (room self.new) result }
        ensures floor { floor self.new ≡ floor self.old };

    // what holds of every store
    ghost laws: { (s : Self) → Laws (contexts s) (floor s) (room s) };
}
