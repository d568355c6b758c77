// The contexts that stand.
use super::Host;
use crate::compare::same_context;
use crate::tally::Tally;
use router::Router;
use stores::{Context, PduSession, Store};

// Those of one UE by the session.
pub(super) fn contexts_of<S: Store>(router: &Router<S>, ue: u32) -> [Option<Context>; 15] {
    let mut contexts = [None; 15];
    for (place, id) in contexts.iter_mut().zip(1..16) {
        *place = router.context(PduSession { ue, id });
    }
    contexts
}

pub(super) fn same_contexts(a: &[Option<Context>], b: &[Option<Context>]) -> bool {
    a.len() == b.len() && a.iter().zip(b).all(|(x, y)| same_context(*x, *y))
}

// The one of the session, if it is among them.
fn context_in(contexts: &[Context], id: u8) -> Option<Context> {
    contexts
        .iter()
        .find(|context| context.session == id)
        .copied()
}

impl<'a, S: Store> Host<'a, S> {
    pub(super) fn find(
        &self,
        tally: &mut Tally<'_>,
        session: PduSession,
        expected: Option<Context>,
    ) {
        tally.compare(
            "the context of a session",
            same_context(self.router.context(session), expected),
        );
    }

    // UE 5 has these contexts and no others.
    pub(super) fn find_all(&self, tally: &mut Tally<'_>, expected: &[Context]) {
        for id in 1..16 {
            self.find(tally, PduSession { ue: 5, id }, context_in(expected, id));
        }
    }

    pub(super) fn release(
        &mut self,
        tally: &mut Tally<'_>,
        session: PduSession,
        refusal: Option<u8>,
    ) {
        let answer = self.router.released(session).err().map(u8::from);
        tally.compare("the answer to a release", answer == refusal);
        tally.compare(
            "a context after its release",
            self.router.context(session).is_none(),
        );
    }
}
