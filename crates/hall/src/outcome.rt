// The lines that say what came of a command.
ghost use Rattle.std.specs.Prelude.{◌≡◌, IfOk, string_bytes};
ghost use Rattle.codes.specs.Refusals.{refusal_number};
ghost use Rattle.hall.specs.Asked.{wanted};
ghost use Rattle.hall.specs.Ends.{outcome_of, reason};
ghost use Rattle.hall.specs.Outcomes.{accepted_line, refused_line, Tells, TellsDone};

use crate::change::{Change, StoreKind};
use crate::directory_kind::DirectoryKind;
use crate::directory_state::DirectoryState;
use crate::not_done::NotDone;
use crate::verb::Verb;
use crate::word::Word;
use codes::{Refusal, SetupError};
use playing::error_line;
use std::alloc::{AllocError, Global};

// What an accepted change prints. Each line stands whole, so that it is read as it is printed.
fn accepted_line(heap: Global, change: &Change) -> Result<String, AllocError>
    ensures { IfOk result (λ s. string_bytes s ≡ accepted_line (wanted change.now)) }
{
    match change {
        Change::Book(names) => {
            let count = names.len();
            format!(in heap; "book {count}")
        }
        Change::Store(StoreKind::Flat(rows)) => format!(in heap; "store flat {rows}"),
        Change::Store(StoreKind::Grid) => format!(in heap; "store grid"),
        Change::Directory(DirectoryKind::List) => format!(in heap; "directory list"),
        Change::Directory(DirectoryKind::Turning) => format!(in heap; "directory turning"),
        Change::Serve(_) => format!(in heap; "serve"),
        Change::Mark(DirectoryState::Open) => format!(in heap; "mark open"),
        Change::Mark(DirectoryState::Closed) => format!(in heap; "mark closed"),
        Change::Control(rows) => format!(in heap; "control {rows}"),
        Change::Set(_, _) => format!(in heap; "set"),
        Change::Clear(_) => format!(in heap; "clear"),
    }
}

fn refused_line(heap: Global, verb: Verb, refusal: Refusal) -> Result<String, AllocError>
    ensures { IfOk result (λ s. string_bytes s ≡ refused_line verb (refusal_number refusal)) }
{
    let verb = Word(verb);
    let number = u8::from(refusal);
    format!(in heap; "{verb} refused {number}")
}

// What the line of this number prints that asked for something that was not done.
pub(crate) fn not_done_line(
    heap: Global,
    number: u64,
    verb: Verb,
    not_done: NotDone,
) -> Result<String, AllocError>
    ensures { IfOk result (λ s. TellsDone number verb (reason not_done) (string_bytes s)) }
{
    match not_done {
        NotDone::Setup(SetupError::Refused(refusal)) => refused_line(heap, verb, refusal),
        NotDone::Setup(SetupError::OutOfMemory) => Err(AllocError),
        NotDone::Misplaced => error_line(heap, number),
    }
}

// What the line of this number prints that asked for `change`.
pub(crate) fn outcome_line(
    heap: Global,
    number: u64,
    change: &Change,
    done: Result<(), NotDone>,
) -> Result<String, AllocError>
    ensures { IfOk result (λ s. Tells number (wanted change.now) (outcome_of done) (string_bytes s)) }
{
    match done {
        Ok(()) => accepted_line(heap, change),
        Err(not_done) => not_done_line(heap, number, change.verb(), not_done),
    }
}
