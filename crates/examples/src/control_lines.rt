// Refusals 19 and 20 of a control table.
use crate::tally::Tally;
use codes::{DnnNumber, Refusal, SetupError, SliceCode};
use control::{ControlKey, ControlNumbers, ControlRow, ControlTable};

const SLICE: SliceCode = 0x01_FF_FF_FF;

// A call by kind and DNN number, in one slice, and the number of its refusal if it has one.
#[derive(Clone, Copy)]
enum Call {
    Set(u8, DnnNumber, u8, Option<u8>),
    Clear(u8, DnnNumber, Option<u8>),
    BackOff(ControlKey, Option<u8>),
    /// So many DNNs, from this one on, get a line of kind 1.
    SetMany(DnnNumber, u8),
}

const KINDS: [Call; 19] = [
    Call::Set(0, 1, 0x21, Some(19)),
    Call::Set(4, 1, 0x21, Some(19)),
    Call::Clear(0, 1, Some(19)),
    Call::Clear(4, 1, Some(19)),
    // there is none yet
    Call::Clear(1, 1, Some(19)),
    Call::Clear(2, 1, Some(19)),
    Call::Clear(3, 1, Some(19)),
    Call::Set(1, 1, 0x21, None),
    Call::Set(2, 1, 0x22, None),
    Call::Set(3, 1, 0x23, None),
    // there is none of these keys
    Call::Clear(1, 2, Some(19)),
    Call::Clear(2, 2, Some(19)),
    Call::BackOff(ControlKey::Dnn(1), Some(0x21)),
    Call::BackOff(ControlKey::SliceAndDnn(SLICE, 1), Some(0x22)),
    Call::BackOff(ControlKey::Slice(SLICE), Some(0x23)),
    Call::Clear(1, 1, None),
    // kind 3 names no DNN
    Call::Clear(3, 2, None),
    Call::Clear(1, 1, Some(19)),
    Call::BackOff(ControlKey::SliceAndDnn(SLICE, 1), Some(0x22)),
];

const FULL: [Call; 9] = [
    Call::SetMany(1, 64),
    Call::Set(1, 65, 0x21, Some(20)),
    Call::Set(3, 1, 0x21, Some(20)),
    Call::BackOff(ControlKey::Dnn(65), None),
    // a kind that there is not comes first
    Call::Set(4, 1, 0x21, Some(19)),
    // a line that is there is replaced
    Call::Set(1, 64, 0x22, None),
    Call::BackOff(ControlKey::Dnn(64), Some(0x22)),
    Call::Clear(1, 1, None),
    Call::Set(1, 65, 0x21, None),
];

fn numbers(kind: u8, dnn: DnnNumber) -> ControlNumbers {
    ControlNumbers {
        kind,
        slice: SLICE,
        dnn,
    }
}

fn number_in(answer: Result<(), Refusal>) -> Option<u8> {
    answer.err().map(u8::from)
}

fn set_many(table: &mut ControlTable<'_>, first: DnnNumber, count: u8) -> bool {
    for i in 0..count {
        if table
            .set(numbers(1, first.saturating_add(i)), 0x21)
            .is_err()
        {
            return false;
        }
    }
    true
}

fn is_answered(table: &mut ControlTable<'_>, call: Call) -> bool {
    match call {
        Call::Set(kind, dnn, back_off, refusal) => {
            number_in(table.set(numbers(kind, dnn), back_off)) == refusal
        }
        Call::Clear(kind, dnn, refusal) => number_in(table.clear(numbers(kind, dnn))) == refusal,
        Call::BackOff(key, back_off) => table.back_off(key) == back_off,
        Call::SetMany(first, count) => set_many(table, first, count),
    }
}

fn run(tally: &mut Tally<'_>, rows: &mut [ControlRow], calls: &[Call]) -> Result<(), SetupError> {
    let Ok(mut table) = ControlTable::new(rows) else {
        return Err(Refusal::Opening.into());
    };
    for call in calls {
        tally.next_call();
        tally.compare("a control line", is_answered(&mut table, *call));
    }
    Ok(())
}

pub(crate) fn run_control_lines(tally: &mut Tally<'_>) -> anyhow::Result<()> {
    let mut rows = [ControlRow::free(); 64];
    tally.begin("kinds", "no store");
    if run(tally, &mut rows, &KINDS).is_err() {
        anyhow::bail!("no control table");
    }
    tally.print(
        "refusal 19: kinds 0 and 4, and a line to clear that is not there; not kinds 1 to 3, and one that is",
    )?;
    tally.begin("full table", "no store");
    if run(tally, &mut rows, &FULL).is_err() {
        anyhow::bail!("no control table");
    }
    tally.print(
        "refusal 20: a new key at a full table of 64 rows; not a key that is there, nor while a row is free",
    )?;
    Ok(())
}
