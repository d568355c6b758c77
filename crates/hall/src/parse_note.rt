// What the words behind `ue`, `subscribe` and `know` put on record, if they do.
ghost use Rattle.std.specs.Prelude.{◌≡◌, map};
ghost use Rattle.scenario.specs.Words.{text};
ghost use Rattle.hall.specs.Notes.{by_two, by_three, no_marks, ue_mark, line_mark, ue_words, subscribe_words, know_words};

use crate::parse_change::{parse_byte, parse_u32};
use crate::ue_note::{UeMarks, UeNote};
use crate::word::is_word;
use records::{KnownLine, SubscriptionLine};
use scenario::parse_slice;

// The marks with the one more that the word is; none where it is no mark, or one that is there.
fn with_ue_mark(marks: UeMarks, word: &[u8]) -> Option<UeMarks>
    ensures { result ≡ ue_mark marks word.now }
{
    if !marks.high_priority && is_word(word, b"high") {
        return Some(UeMarks {
            high_priority: true,
            ..marks
        });
    }
    if !marks.awaits_registration && is_word(word, b"waiting") {
        return Some(UeMarks {
            awaits_registration: true,
            ..marks
        });
    }
    None
}

// The marks come in any order.
fn ue_marks(words: &[&[u8]]) -> Option<UeMarks>
    ensures { result ≡ by_two ue_mark no_marks (map text words.now) }
{
    let none = UeMarks {
        high_priority: false,
        awaits_registration: false,
    };
    match words {
        [] => Some(none),
        [first] => with_ue_mark(none, *first),
        [first, second] => with_ue_mark(with_ue_mark(none, *first)?, *second),
        _ => None,
    }
}

pub(crate) fn parse_ue(words: &[&[u8]]) -> Option<UeNote>
    ensures { result ≡ ue_words (map text words.now) }
{
    let [number, limit, marks @ ..] = words else {
        return None;
    };
    let number = parse_u32(*number)?;
    let limit = parse_byte(*limit)?;
    Some(UeNote::Begin(number, limit, ue_marks(marks)?))
}

// The same of a subscription line.
fn with_line_mark(line: SubscriptionLine, word: &[u8]) -> Option<SubscriptionLine>
    ensures { result ≡ line_mark line word.now }
{
    if !line.default_slice && is_word(word, b"slice") {
        return Some(SubscriptionLine {
            default_slice: true,
            ..line
        });
    }
    if !line.default_dnn && is_word(word, b"dnn") {
        return Some(SubscriptionLine {
            default_dnn: true,
            ..line
        });
    }
    if !line.allowed && is_word(word, b"allowed") {
        return Some(SubscriptionLine {
            allowed: true,
            ..line
        });
    }
    None
}

fn marked_line(line: SubscriptionLine, words: &[&[u8]]) -> Option<SubscriptionLine>
    ensures { result ≡ by_three line_mark line (map text words.now) }
{
    match words {
        [] => Some(line),
        [first] => with_line_mark(line, *first),
        [first, second] => with_line_mark(with_line_mark(line, *first)?, *second),
        [first, second, third] => {
            let line = with_line_mark(with_line_mark(line, *first)?, *second)?;
            with_line_mark(line, *third)
        }
        _ => None,
    }
}

pub(crate) fn parse_subscribe(words: &[&[u8]]) -> Option<UeNote>
    ensures { result ≡ subscribe_words (map text words.now) }
{
    let [ue, slice, dnn, marks @ ..] = words else {
        return None;
    };
    let ue = parse_u32(*ue)?;
    let line = SubscriptionLine {
        slice: parse_slice(*slice)?,
        dnn: parse_byte(*dnn)?,
        default_slice: false,
        default_dnn: false,
        allowed: false,
    };
    Some(UeNote::Subscribe(ue, marked_line(line, marks)?))
}

pub(crate) fn parse_know(words: &[&[u8]]) -> Option<UeNote>
    ensures { result ≡ know_words (map text words.now) }
{
    let [ue, session, dnn, smf] = words else {
        return None;
    };
    let ue = parse_u32(*ue)?;
    let line = KnownLine {
        session: parse_byte(*session)?,
        dnn: parse_byte(*dnn)?,
        smf: parse_byte(*smf)?,
    };
    Some(UeNote::Know(ue, line))
}
