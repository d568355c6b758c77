// The change that the words behind a verb ask for, if they do.
ghost use Rattle.std.specs.Prelude.{◌≡◌, map, IfOk, vec_items};
ghost use Rattle.std.specs.Option.{option_map};
ghost use Rattle.scenario.specs.Number.{number_in};
ghost use Rattle.scenario.specs.Words.{text};
ghost use Rattle.hall.specs.Asked.{wanted};
ghost use Rattle.hall.specs.Numerals.{u32_in};
ghost use Rattle.hall.specs.Changes.{byte_in, names_in, book_words, flat_of, store_words, directory_words, line_of, serve_words, mark_words, control_words, numbers_of, set_words, clear_words};

use crate::change::{Change, StoreKind};
use crate::directory_kind::DirectoryKind;
use crate::directory_state::DirectoryState;
use crate::word::{is_word, only_named};
use control::ControlNumbers;
use directories::ServiceLine;
use scenario::{parse_number, parse_octet, parse_octets, parse_slice};
use std::alloc::{AllocError, Global};

// A number that one octet holds.
pub(crate) fn parse_byte(word: &[u8]) -> Option<u8>
    ensures { result ≡ byte_in word.now }
{
    u8::try_from(parse_number(word)?).ok()
}

// A number that four octets hold.
pub(crate) fn parse_u32(word: &[u8]) -> Option<u32>
    ensures { result ≡ u32_in word.now }
{
    u32::try_from(parse_number(word)?).ok()
}

// How many rows or octets there are to be.
pub(crate) fn parse_length(word: &[u8]) -> Option<usize>
    ensures { result ≡ number_in word.now }
{
    parse_number(word).map(|rows| rows as usize)
}

// The octets of each word, if all are octets.
fn parse_names(heap: Global, words: &[&[u8]]) -> Result<Option<Vec<Vec<u8>>>, AllocError>
    ensures { IfOk result (λ o.
        option_map (λ v. map vec_items v.items) o ≡ names_in (map text words.now)) }
{
    let mut names = Vec::new(heap);
    // A `for`: the library says nothing yet of what `collect` into an `Option` gives.
    for word in words {
        let Some(name) = parse_octets(heap, *word)? else {
            return Ok(None);
        };
        names.push(name)?;
    }
    Ok(Some(names))
}

pub(crate) fn parse_book(heap: Global, words: &[&[u8]]) -> Result<Option<Change>, AllocError>
    ensures { IfOk result (λ o. option_map wanted o ≡ book_words (map text words.now)) }
{
    if words.is_empty() {
        return Ok(None);
    }
    Ok(parse_names(heap, words)?.map(Change::Book))
}

fn flat_change(kind: &[u8], rows: &[u8]) -> Option<Change>
    ensures { option_map wanted result ≡ flat_of kind.now rows.now }
{
    if !is_word(kind, b"flat") {
        return None;
    }
    Some(Change::Store(StoreKind::Flat(parse_length(rows)?)))
}

pub(crate) fn parse_store(words: &[&[u8]]) -> Option<Change>
    ensures { option_map wanted result ≡ store_words (map text words.now) }
{
    match words {
        [kind] if is_word(*kind, b"grid") => Some(Change::Store(StoreKind::Grid)),
        [kind, rows] => flat_change(*kind, *rows),
        _ => None,
    }
}

pub(crate) fn parse_directory(words: &[&[u8]]) -> Option<Change>
    ensures { option_map wanted result ≡ directory_words (map text words.now) }
{
    only_named(&DirectoryKind::ALL, words).map(Change::Directory)
}

#[tactic(auto, unfolding(crate::specs::Changes::line_of))]
fn service_line(slice: &[u8], dnn: &[u8], smf: &[u8]) -> Option<ServiceLine>
    ensures { result ≡ line_of slice.now dnn.now smf.now }
{
    Some(ServiceLine {
        slice: parse_slice(slice)?,
        dnn: parse_byte(dnn)?,
        smf: parse_byte(smf)?,
    })
}

pub(crate) fn parse_serve(words: &[&[u8]]) -> Option<Change>
    ensures { option_map wanted result ≡ serve_words (map text words.now) }
{
    let [slice, dnn, smf] = words else {
        return None;
    };
    Some(Change::Serve(service_line(*slice, *dnn, *smf)?))
}

pub(crate) fn parse_mark(words: &[&[u8]]) -> Option<Change>
    ensures { option_map wanted result ≡ mark_words (map text words.now) }
{
    only_named(&DirectoryState::ALL, words).map(Change::Mark)
}

pub(crate) fn parse_control(words: &[&[u8]]) -> Option<Change>
    ensures { option_map wanted result ≡ control_words (map text words.now) }
{
    let [rows] = words else {
        return None;
    };
    Some(Change::Control(parse_length(*rows)?))
}

fn control_numbers(kind: &[u8], slice: &[u8], dnn: &[u8]) -> Option<ControlNumbers>
    ensures { result ≡ numbers_of kind.now slice.now dnn.now }
{
    Some(ControlNumbers {
        kind: parse_byte(kind)?,
        slice: parse_slice(slice)?,
        dnn: parse_byte(dnn)?,
    })
}

pub(crate) fn parse_set(words: &[&[u8]]) -> Option<Change>
    ensures { option_map wanted result ≡ set_words (map text words.now) }
{
    let [kind, slice, dnn, back_off] = words else {
        return None;
    };
    let numbers = control_numbers(*kind, *slice, *dnn)?;
    Some(Change::Set(numbers, parse_octet(*back_off)?))
}

pub(crate) fn parse_clear(words: &[&[u8]]) -> Option<Change>
    ensures { option_map wanted result ≡ clear_words (map text words.now) }
{
    let [kind, slice, dnn] = words else {
        return None;
    };
    Some(Change::Clear(control_numbers(*kind, *slice, *dnn)?))
}
