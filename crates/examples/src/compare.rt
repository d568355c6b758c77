// Comparisons of octets and contexts.
use stores::Context;

// What an output is filled with before each call, so that it shows which octets a call wrote.
pub(crate) const UNWRITTEN: u8 = 0xEE;

pub(crate) fn is_unwritten(output: &[u8]) -> bool {
    output.iter().all(|octet| *octet == UNWRITTEN)
}

// Whether the output begins with these octets, and nothing behind them was written.
pub(crate) fn is_written(output: &[u8], octets: &[u8]) -> bool {
    let (Some(front), Some(rest)) = (output.get(..octets.len()), output.get(octets.len()..)) else {
        return false;
    };
    front == octets && is_unwritten(rest)
}

const SLOT_LENGTH: usize = 2048;

// Whether the slots from this octet on begin with the payload, and all behind it is what it was.
fn front_is(after: &[u8], before: &[u8], start: usize, payload: &[u8]) -> bool {
    let end = start.saturating_add(payload.len());
    let (Some(part), Some(rest), Some(earlier)) = (
        after.get(start..end),
        after.get(end..),
        before.get(end..),
    ) else {
        return false;
    };
    part == payload && rest == earlier
}

fn back_stays(after: &[u8], before: &[u8], end: usize) -> bool {
    let (Some(part), Some(earlier)) = (after.get(..end), before.get(..end)) else {
        return false;
    };
    part == earlier
}

// Whether one slot of the pool begins with the payload, and all else in the pool is what it was. Which
// slot is for the router to say.
pub(crate) fn one_slot_is(after: &[u8], before: &[u8], payload: &[u8]) -> bool {
    (0..16).any(|slot| {
        let start = SLOT_LENGTH * slot;
        front_is(after, before, start, payload) && back_stays(after, before, start)
    })
}

pub(crate) fn same_context(a: Option<Context>, b: Option<Context>) -> bool {
    match (a, b) {
        (Some(a), Some(b)) => {
            a.ue == b.ue
                && a.session == b.session
                && a.smf == b.smf
                && a.emergency == b.emergency
                && a.slice == b.slice
                && a.dnn == b.dnn
        }
        (None, None) => true,
        _ => false,
    }
}
