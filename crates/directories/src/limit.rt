// How much a directory holds. A function and no type of its own, which would only hand on a list's
// methods.
ghost use Rattle.directories.specs.Additions.{Pushing};

use codes::{Refusal, SetupError};

// How many lines a list directory holds at most, and how many pairs of a slice and an SMF a turning
// one does.
const CAPACITY: usize = 64;

// One item more, if there is room for it, which is checked before any memory is asked for.
pub(crate) fn push_within_limit<T: Drop>(items: &mut Vec<T>, item: T) -> Result<(), SetupError>
    ensures { Pushing items.old.items item items.new.items result }
{
    if items.len() >= CAPACITY {
        return Err(Refusal::Opening.into());
    }
    items.push(item)?;
    Ok(())
}
