// What the words behind a verb ask of the router, if they do.
ghost use Rattle.std.specs.Prelude.{◌≡◌, map, IfOk};
ghost use Rattle.std.specs.Option.{option_map};
ghost use Rattle.scenario.specs.Words.{text};
ghost use Rattle.hall.specs.Calls.{called, or_usual, with_length, lengths_in, receive_words, payload_words, failed_words, ticket_in, taken_words, park_words, pick_words, session_in, released_words, find_words};

use crate::call::{Call, Reception};
use crate::parse_change::{parse_byte, parse_length, parse_u32};
use crate::word::is_word;
use hosts::Lengths;
use scenario::parse_octets;
use std::alloc::{AllocError, Global};
use stores::PduSession;

// The lengths that a command may give, of which each is given once at most.
#[derive(Clone, Copy)]
struct GivenLengths {
    output: Option<usize>,
    pool: Option<usize>,
}

impl GivenLengths {
    // Those that are not given are the usual ones.
    fn lengths(self) -> Lengths
        ensures { result ≡ or_usual self }
    {
        let usual = Lengths::usual();
        Lengths {
            output: self.output.unwrap_or(usual.output),
            pool: self.pool.unwrap_or(usual.pool),
        }
    }
}

// With the one more that the two words give.
fn with_length(given: GivenLengths, name: &[u8], length: &[u8]) -> Option<GivenLengths>
    ensures { result ≡ with_length given name.now length.now }
{
    let length = Some(parse_length(length)?);
    if given.output.is_none() && is_word(name, b"output") {
        return Some(GivenLengths {
            output: length,
            ..given
        });
    }
    if given.pool.is_none() && is_word(name, b"pool") {
        return Some(GivenLengths {
            pool: length,
            ..given
        });
    }
    None
}

// They come in any order.
fn parse_lengths(words: &[&[u8]]) -> Option<GivenLengths>
    ensures { result ≡ lengths_in (map text words.now) }
{
    let none = GivenLengths {
        output: None,
        pool: None,
    };
    match words {
        [] => Some(none),
        [name, length] => with_length(none, *name, *length),
        [name, length, other, rest] => {
            with_length(with_length(none, *name, *length)?, *other, *rest)
        }
        _ => None,
    }
}

pub(crate) fn parse_receive(heap: Global, words: &[&[u8]]) -> Result<Option<Call>, AllocError>
    ensures { IfOk result (λ o. option_map called o ≡ receive_words (map text words.now)) }
{
    let [ue, message, rest @ ..] = words else {
        return Ok(None);
    };
    let (Some(ue), Some(given)) = (parse_u32(*ue), parse_lengths(rest)) else {
        return Ok(None);
    };
    let lengths = given.lengths();
    let message = parse_octets(heap, *message)?;
    Ok(message.map(|message| {
        Call::Receive(Reception {
            ue,
            message,
            lengths,
        })
    }))
}

// No output is lent to it.
pub(crate) fn parse_payload(words: &[&[u8]]) -> Option<Call>
    ensures { option_map called result ≡ payload_words (map text words.now) }
{
    let [number, rest @ ..] = words else {
        return None;
    };
    let number = parse_u32(*number)?;
    let given = parse_lengths(rest)?;
    if given.output.is_some() {
        return None;
    }
    Some(Call::Payload(number, given.lengths().pool))
}

pub(crate) fn parse_failed(words: &[&[u8]]) -> Option<Call>
    ensures { option_map called result ≡ failed_words (map text words.now) }
{
    let [number, rest @ ..] = words else {
        return None;
    };
    let number = parse_u32(*number)?;
    Some(Call::Failed(number, parse_lengths(rest)?.lengths()))
}

// The number of a ticket, where it is the only word.
fn parse_ticket(words: &[&[u8]]) -> Option<u32>
    ensures { result ≡ ticket_in (map text words.now) }
{
    let [number] = words else {
        return None;
    };
    parse_u32(*number)
}

pub(crate) fn parse_taken(words: &[&[u8]]) -> Option<Call>
    ensures { option_map called result ≡ taken_words (map text words.now) }
{
    parse_ticket(words).map(Call::Taken)
}

pub(crate) fn parse_park(words: &[&[u8]]) -> Option<Call>
    ensures { option_map called result ≡ park_words (map text words.now) }
{
    parse_ticket(words).map(Call::Park)
}

pub(crate) fn parse_pick(words: &[&[u8]]) -> Option<Call>
    ensures { option_map called result ≡ pick_words (map text words.now) }
{
    parse_ticket(words).map(Call::Pick)
}

fn parse_session(words: &[&[u8]]) -> Option<PduSession>
    ensures { result ≡ session_in (map text words.now) }
{
    let [ue, id] = words else {
        return None;
    };
    Some(PduSession {
        ue: parse_u32(*ue)?,
        id: parse_byte(*id)?,
    })
}

pub(crate) fn parse_released(words: &[&[u8]]) -> Option<Call>
    ensures { option_map called result ≡ released_words (map text words.now) }
{
    parse_session(words).map(Call::Released)
}

pub(crate) fn parse_find(words: &[&[u8]]) -> Option<Call>
    ensures { option_map called result ≡ find_words (map text words.now) }
{
    parse_session(words).map(Call::Find)
}
