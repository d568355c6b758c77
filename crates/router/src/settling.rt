// What a verdict makes of the contexts that a store has.
ghost use Rattle.std.specs.Prelude.{◌≡◌, true, None};
ghost use Rattle.router.specs.Receiving.{PutFits, Settled};
ghost use Rattle.verdicts.specs.Verdicts.{context_of};

use stores::{PduSession, Store};
use verdicts::Verdict;

// Puts the context that is established for the session, or removes the one whose release is
// ordered. There is room for the session.
pub(crate) fn settle<S: Store>(store: &mut S, session: PduSession, verdict: Verdict)
    requires room { S.Store.room store.old session.ue session.id ≡ true }
    requires bounded { PutFits verdict session.ue session.id }
    ensures untouched { context_of verdict session.ue session.id ≡ None
        → verdict.release ≡ None → store.new ≡ store.old }
    ensures floor { S.Store.floor store.new ≡ S.Store.floor store.old }
    ensures contexts { Settled verdict session.ue session.id
        (S.Store.contexts store.old) (S.Store.contexts store.new) }
{
    match verdict.context(session) {
        Some(context) => {
            let Ok(()) = store.put(context) else {
                unreachable!()
            };
        }
        None => {
            if verdict.release.is_some() {
                store.remove(session);
            }
        }
    }
}
