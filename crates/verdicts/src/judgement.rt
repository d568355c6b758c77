// Judging: the verdict on a payload, over a store, control lines and a directory.
ghost use Rattle.std.specs.Prelude.{◌≡◌, true};
ghost use Rattle.directories.specs.Consultations.{Consulted};
ghost use Rattle.verdicts.specs.Cases.{posed};
ghost use Rattle.verdicts.specs.Judgements.{directory_answer, ConsultedFor, JudgedBy};
ghost use Rattle.verdicts.specs.Rules.{has_choice};
ghost use Rattle.verdicts.specs.Verdicts.{chosen, smf_of, verdict};

use crate::decision::Decision;
use crate::inquiry::Inquiry;
use crate::outcome::Outcome;
use crate::rules::ruling;
use crate::ruling::Ruling;
use crate::verdict::Verdict;
use codes::{Cause, SliceDnn};
use control::ControlTable;
use directories::{Directory, NoSmf};
use stores::Store;

// To the SMF that the directory chooses, or back where it names none.
fn choose<D: Directory>(directory: &mut D, used: SliceDnn, emergency: bool) -> Decision
    ensures value { result ≡ chosen emergency (D.Directory.opened directory.old) (smf_of result) }
    ensures directory { let answer = directory_answer D.Directory directory.old result in
        Consulted D.Directory true used answer directory.old directory.new }
{
    match directory.choose(used) {
        Ok(smf) => Decision::Establish { smf, emergency },
        Err(NoSmf::NoneServes) => Decision::Return(Cause::DnnNotSupported),
        Err(NoSmf::Closed) => Decision::Return(Cause::NotForwarded),
    }
}

// The verdict that the rules give.
fn rule<S: Store, D: Directory>(
    inquiry: &Inquiry<'_>,
    store: &S,
    controls: &ControlTable<'_>,
    directory: &mut D,
) -> Verdict
    ensures value { let c = posed inquiry.now (S.Store.contexts store.now) controls.now in
        result ≡ verdict c (D.Directory.opened directory.old) (smf_of result.decision) }
    ensures directory { let c = posed inquiry.now (S.Store.contexts store.now) controls.now in
        ConsultedFor D.Directory (has_choice c) result directory.old directory.new }
{
    let context = store.find(inquiry.pdu_session());
    let used = inquiry.slice_and_dnn(context);
    let Ruling { outcome, release } = ruling(inquiry, store, controls, context, used);
    let decision = match outcome {
        Outcome::Settled(decision) => decision,
        Outcome::Choose { emergency } => choose(directory, used, emergency),
    };
    Verdict {
        used,
        decision,
        release,
    }
}

/// The verdict on what a UE asks, over the contexts of the store and the control lines, by the
/// first rule that applies. The directory is asked once where the rules leave it the choice, and is
/// else left as it was.
pub fn judge<S: Store, D: Directory>(
    inquiry: &Inquiry<'_>,
    store: &S,
    controls: &ControlTable<'_>,
    directory: &mut D,
) -> Verdict
    ensures judged { let c = posed inquiry.now (S.Store.contexts store.now) controls.now in
        JudgedBy D.Directory c directory.old result }
    ensures directory { let c = posed inquiry.now (S.Store.contexts store.now) controls.now in
        ConsultedFor D.Directory (has_choice c) result directory.old directory.new }
{
    rule(inquiry, store, controls, directory)
}
