// The rules by which a payload is forwarded or returned, put to a store and to control lines.
ghost use Rattle.std.specs.Prelude.{◌≡◌};
ghost use Rattle.control.specs.Lines.{back_off_of};
ghost use Rattle.records.specs.Firsts.{known_dnn};
ghost use Rattle.records.specs.Records.{plain};
ghost use Rattle.verdicts.specs.declared.decision.Decision.TheVariants.{Forward, Return};
ghost use Rattle.verdicts.specs.Cases.{asked, posed};
ghost use Rattle.verdicts.specs.Rulings.{only, settled};
ghost use Rattle.verdicts.specs.Rules.{awaits_with_emergency, control_cause, congestion, at_limit, barred, objection, established, kept_emergency, emergency_smf_of, or_choice, route, ruling_with};

use crate::decision::Decision;
use crate::inquiry::Inquiry;
use crate::outcome::Outcome;
use crate::ruling::Ruling;
use codes::{Cause, RequestType, SliceDnn, SmfId};
use control::{ControlKey, ControlTable};
use stores::{Context, PduSession, Store};

// Whether it is an initial request of a UE that awaits a mobility registration and has an emergency
// context.
#[tactic(auto, unfolding(crate::specs::Rules::awaits_with_emergency))]
fn awaits_with_emergency<S: Store>(
    inquiry: &Inquiry<'_>,
    store: &S,
    context: Option<Context>,
) -> bool
    ensures { result ≡ awaits_with_emergency (asked inquiry.now) (S.Store.contexts store.now) context }
{
    if !inquiry.requests(RequestType::Initial) || !inquiry.record.awaits_registration {
        return false;
    }
    let other = store.lowest_other_emergency(inquiry.pdu_session());
    context.is_some_and(|context| context.emergency) || other.is_some()
}

// The cause of a control line for the DNN, or else for the slice and the DNN, or else for the
// slice.
fn control_cause(controls: &ControlTable<'_>, used: SliceDnn) -> Option<Cause>
    ensures { result ≡ control_cause (back_off_of controls.now) used }
{
    if let Some(octet) = controls.back_off(ControlKey::Dnn(used.dnn)) {
        return Some(Cause::Congestion(octet));
    }
    if let Some(octet) = controls.back_off(ControlKey::SliceAndDnn(used.slice, used.dnn)) {
        return Some(Cause::SliceAndDnnCongestion(octet));
    }
    controls
        .back_off(ControlKey::Slice(used.slice))
        .map(Cause::SliceCongestion)
}

// That cause, for a request that congestion holds off.
#[tactic(auto, unfolding(crate::specs::Rules::congestion))]
fn congestion(inquiry: &Inquiry<'_>, controls: &ControlTable<'_>, used: SliceDnn) -> Option<Cause>
    ensures { result ≡ congestion (asked inquiry.now) (back_off_of controls.now) used }
{
    if !inquiry.is_held_off() {
        return None;
    }
    control_cause(controls, used)
}

// Whether the request is initial or existing, and the UE has as many other contexts as it may have
// sessions.
#[tactic(auto, unfolding(crate::specs::Rules::at_limit))]
fn is_at_limit<S: Store>(inquiry: &Inquiry<'_>, store: &S) -> bool
    ensures { result ≡ at_limit (asked inquiry.now) (S.Store.contexts store.now) }
{
    if !inquiry.requests(RequestType::Initial) && !inquiry.requests(RequestType::Existing) {
        return false;
    }
    store.count_others(inquiry.pdu_session()) >= inquiry.record.session_limit as usize
}

// Whether the request is existing, and the context may not be moved here.
#[tactic(auto, unfolding(crate::specs::Rules::barred))]
fn is_barred(inquiry: &Inquiry<'_>, context: Option<Context>) -> bool
    ensures { result ≡ barred (asked inquiry.now) context }
{
    let Some(context) = context else {
        return false;
    };
    inquiry.requests(RequestType::Existing)
        && !context.emergency
        && !inquiry.record.allows(context.slice)
}

// Why a payload goes back whether or not a context stands.
#[tactic(auto, unfolding(crate::specs::Rules::objection))]
fn objection<S: Store>(
    inquiry: &Inquiry<'_>,
    store: &S,
    controls: &ControlTable<'_>,
    context: Option<Context>,
    used: SliceDnn,
) -> Option<Cause>
    ensures { let c = posed inquiry.now (S.Store.contexts store.now) controls.now in
        result ≡ objection c.asked c.contexts c.back_off context used }
{
    if awaits_with_emergency(inquiry, store, context) {
        return Some(Cause::NotForwarded);
    }
    if let Some(cause) = congestion(inquiry, controls, used) {
        return Some(cause);
    }
    if is_at_limit(inquiry, store) {
        return Some(Cause::MaximumSessions);
    }
    if is_barred(inquiry, context) {
        return Some(Cause::NotForwarded);
    }
    None
}

// Back to the UE.
fn returned(cause: Cause) -> Ruling
    ensures { result ≡ settled (Return cause) }
{
    Ruling::only(Outcome::Settled(Decision::Return(cause)))
}

// To the SMF of the context.
fn forwarded(context: Context) -> Ruling
    ensures { result ≡ settled (Forward context.smf) }
{
    Ruling::only(Outcome::Settled(Decision::Forward(context.smf)))
}

// To an SMF, for which a context is put, or back where there is none.
fn established(smf: Option<SmfId>, emergency: bool) -> Ruling
    ensures { result ≡ only (established emergency smf) }
{
    Ruling::only(Outcome::Settled(match smf {
        Some(smf) => Decision::Establish { smf, emergency },
        None => Decision::Return(Cause::NotForwarded),
    }))
}

// An emergency request for a session that has this context.
fn kept_emergency(context: Context) -> Ruling
    ensures { result ≡ only (kept_emergency context) }
{
    if context.emergency {
        return forwarded(context);
    }
    returned(Cause::NotForwarded)
}

// The SMF of the UE's lowest other emergency session, or else the static one.
#[tactic(auto, unfolding(crate::specs::Rules::emergency_smf_of))]
fn emergency_smf<S: Store>(inquiry: &Inquiry<'_>, store: &S) -> Option<SmfId>
    ensures { result ≡ emergency_smf_of (asked inquiry.now) (S.Store.contexts store.now) }
{
    let fallback = inquiry.configuration.emergency_smf();
    let session = inquiry.pdu_session();
    let Some(id) = store.lowest_other_emergency(session) else {
        return fallback;
    };
    match store.find(PduSession { ue: session.ue, id }) {
        Some(context) => Some(context.smf),
        None => fallback,
    }
}

// The SMF of the first known line of the DNN of emergency sessions.
fn known_emergency_smf(inquiry: &Inquiry<'_>) -> Option<SmfId>
    ensures { result ≡ known_dnn (plain inquiry.now.record) inquiry.now.configuration.emergency.dnn }
{
    inquiry
        .record
        .known_dnn(inquiry.configuration.emergency.dnn)
}

// To the SMF, if there is one, and else to the directory's choice.
fn or_choice(smf: Option<SmfId>) -> Ruling
    ensures { result ≡ only (or_choice smf) }
{
    Ruling::only(match smf {
        Some(smf) => Outcome::Settled(Decision::Establish {
            smf,
            emergency: true,
        }),
        None => Outcome::Choose { emergency: true },
    })
}

// Where a payload goes, where nothing objects.
#[tactic(auto, unfolding(crate::specs::Rules::route, crate::specs::Rules::kept_outcome))]
fn route<S: Store>(inquiry: &Inquiry<'_>, store: &S, context: Option<Context>) -> Ruling
    ensures { result ≡ route (asked inquiry.now) (S.Store.contexts store.now) context }
{
    match (inquiry.request_type, context) {
        (Some(RequestType::Initial), _) => Ruling {
            outcome: Outcome::Choose { emergency: false },
            release: context.map(|context| context.smf),
        },
        (None, Some(context)) => forwarded(context),
        (Some(RequestType::Existing), Some(context)) => forwarded(context),
        (Some(RequestType::Modification), Some(context)) => forwarded(context),
        (Some(RequestType::InitialEmergency), Some(context)) => kept_emergency(context),
        (Some(RequestType::ExistingEmergency), Some(context)) => kept_emergency(context),
        (Some(RequestType::Existing), None) => established(inquiry.known_smf(), false),
        (Some(RequestType::InitialEmergency), None) => or_choice(emergency_smf(inquiry, store)),
        (Some(RequestType::ExistingEmergency), None) => {
            established(known_emergency_smf(inquiry), true)
        }
        (Some(RequestType::Modification) | None, None) => returned(Cause::NotForwarded),
    }
}

// What the rules say of a session that has this context, before any directory is asked.
#[tactic(auto, using(crate::proofs::Halves::halves))]
pub(crate) fn ruling<S: Store>(
    inquiry: &Inquiry<'_>,
    store: &S,
    controls: &ControlTable<'_>,
    context: Option<Context>,
    used: SliceDnn,
) -> Ruling
    ensures { let c = posed inquiry.now (S.Store.contexts store.now) controls.now in
        result ≡ ruling_with c.asked c.contexts c.back_off context used }
{
    match objection(inquiry, store, controls, context, used) {
        Some(cause) => returned(cause),
        None => route(inquiry, store, context),
    }
}
