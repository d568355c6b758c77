// What a call of the router comes to, and the line that says so.
ghost use Rattle.std.specs.Prelude.{◌≡◌, IfOk, string_bytes};
ghost use Rattle.hall.specs.Calls.{called};
ghost use Rattle.hall.specs.Replies.{reply_text, context_text, Replies};
ghost use Rattle.hosts.specs.declared.reply.Reply.{Reply};

use crate::call::{Call, Reception};
use crate::directory::HallDirectory;
use crate::not_done::NotDone;
use crate::stage::Stage;
use crate::used::Used;
use hosts::{Host, Reply};
use printing::{Octets, Slice};
use std::alloc::{AllocError, Global};
use stores::{Context, Store};
use verdicts::Decision;

// What is printed of a reply.
fn reply_line(heap: Global, reply: &Reply) -> Result<String, AllocError>
    ensures { IfOk result (λ s. string_bytes s ≡ reply_text reply.now) }
{
    let number = reply.number;
    let used = Used(reply);
    match reply.verdict.decision {
        Decision::Forward(smf) | Decision::Establish { smf, .. } => {
            format!(in heap; "receive forwarded number {number} smf {smf} {used}")
        }
        Decision::Return(cause) => {
            let cause = u8::from(cause);
            let octets = Octets(reply.returned.as_slice());
            format!(in heap;
                "receive returned number {number} cause {cause} {used} octets {octets}"
            )
        }
    }
}

fn context_line(heap: Global, context: Option<Context>) -> Result<String, AllocError>
    ensures { IfOk result (λ s. string_bytes s ≡ context_text context) }
{
    let Some(context) = context else {
        return format!(in heap; "find none");
    };
    let smf = context.smf;
    let slice = Slice(context.slice);
    let dnn = context.dnn;
    let kind = if context.emergency {
        "emergency"
    } else {
        "normal"
    };
    format!(in heap; "find smf {smf} slice {slice} dnn {dnn} {kind}")
}

// A message of a UE that is on record, by the directory that there is.
fn receive<S: Store>(
    stage: &mut Stage<'_>,
    host: &mut Host<S>,
    reception: &Reception,
) -> Result<String, NotDone>
    ensures { IfOk result (λ s. (r : Reply) × (string_bytes s ≡ reply_text r)) }
{
    let heap = stage.rt.alloc();
    let ue = stage.ues.record(reception.ue).ok_or(NotDone::Misplaced)?;
    let message = reception.message.as_slice();
    let lengths = reception.lengths;
    let table = &stage.table;
    let reply = match stage.hall.directory_mut() {
        Some(HallDirectory::List(list)) => {
            host.receive(heap, ue, table, list, lengths, message)?
        }
        Some(HallDirectory::Turning(turning)) => {
            host.receive(heap, ue, table, turning, lengths, message)?
        }
        None => return Err(NotDone::Misplaced),
    };
    Ok(reply_line(heap, &reply)?)
}

// Asks the router, and gives the line of an accepted call.
pub(crate) fn call_line<S: Store>(
    stage: &mut Stage<'_>,
    host: &mut Host<S>,
    call: &Call,
) -> Result<String, NotDone>
    ensures { IfOk result (λ s. Replies (called call.now) (string_bytes s)) }
{
    let heap = stage.rt.alloc();
    if let Some(ue) = call.ue() {
        if !stage.ues.has(ue) {
            return Err(NotDone::Misplaced);
        }
    }
    match call {
        Call::Receive(reception) => receive(stage, host, reception),
        Call::Payload(number, pool) => {
            let octets = host.payload(heap, *number, *pool)?;
            let octets = Octets(octets.as_slice());
            Ok(format!(in heap; "payload {octets}")?)
        }
        Call::Taken(number) => {
            host.taken(*number)?;
            Ok(format!(in heap; "taken")?)
        }
        Call::Failed(number, lengths) => {
            let octets = host.failed(heap, *number, *lengths)?;
            let octets = Octets(octets.as_slice());
            Ok(format!(in heap; "failed octets {octets}")?)
        }
        Call::Park(number) => {
            host.park(*number)?;
            Ok(format!(in heap; "park")?)
        }
        Call::Pick(number) => {
            host.pick(*number)?;
            Ok(format!(in heap; "pick")?)
        }
        Call::Released(session) => {
            host.released(*session)?;
            Ok(format!(in heap; "released")?)
        }
        Call::Find(session) => Ok(context_line(heap, host.context(*session))?),
    }
}
