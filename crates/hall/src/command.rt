// What a line of the scenario asks for.
ghost use Rattle.std.specs.Prelude.{◌≡◌, map, IfOk};
ghost use Rattle.std.specs.Option.{option_map};
ghost use Rattle.scenario.specs.Words.{text};
ghost use Rattle.hall.specs.Commands.{command_of, command_words};
ghost use Rattle.hall.specs.Readings.{asked};

use crate::call::Call;
use crate::change::Change;
use crate::opening::Opening;
use crate::parse_call::{
    parse_failed, parse_find, parse_park, parse_payload, parse_pick, parse_receive, parse_released,
    parse_taken,
};
use crate::parse_change::{
    parse_book, parse_clear, parse_control, parse_directory, parse_mark, parse_serve, parse_set,
    parse_store,
};
use crate::parse_note::{parse_know, parse_subscribe, parse_ue};
use crate::parse_opening::parse_open;
use crate::ue_note::UeNote;
use crate::verb::Verb;
use playing::read_operand;
use std::alloc::{AllocError, Global};

#[derive(Drop)]
pub(crate) enum Command {
    /// Reads one uplink message.
    Read(Vec<u8>),
    /// Changes something in the hall.
    Change(Change),
    /// Opens a router.
    Open(Opening),
    /// Puts something on record of a UE.
    Note(UeNote),
    /// Asks the router.
    Call(Call),
}

// The command that a verb makes with the words behind it.
fn parse_behind(heap: Global, verb: Verb, words: &[&[u8]]) -> Result<Option<Command>, AllocError>
    ensures { IfOk result (λ o. option_map asked o ≡ command_of verb (map text words.now)) }
{
    match verb {
        Verb::Read => Ok(read_operand(heap, words)?.map(Command::Read)),
        Verb::Book => Ok(parse_book(heap, words)?.map(Command::Change)),
        Verb::Store => Ok(parse_store(words).map(Command::Change)),
        Verb::Directory => Ok(parse_directory(words).map(Command::Change)),
        Verb::Serve => Ok(parse_serve(words).map(Command::Change)),
        Verb::Mark => Ok(parse_mark(words).map(Command::Change)),
        Verb::Control => Ok(parse_control(words).map(Command::Change)),
        Verb::Set => Ok(parse_set(words).map(Command::Change)),
        Verb::Clear => Ok(parse_clear(words).map(Command::Change)),
        Verb::Open => Ok(parse_open(words).map(Command::Open)),
        Verb::Ue => Ok(parse_ue(words).map(Command::Note)),
        Verb::Subscribe => Ok(parse_subscribe(words).map(Command::Note)),
        Verb::Know => Ok(parse_know(words).map(Command::Note)),
        Verb::Receive => Ok(parse_receive(heap, words)?.map(Command::Call)),
        Verb::Payload => Ok(parse_payload(words).map(Command::Call)),
        Verb::Taken => Ok(parse_taken(words).map(Command::Call)),
        Verb::Failed => Ok(parse_failed(words).map(Command::Call)),
        Verb::Park => Ok(parse_park(words).map(Command::Call)),
        Verb::Pick => Ok(parse_pick(words).map(Command::Call)),
        Verb::Released => Ok(parse_released(words).map(Command::Call)),
        Verb::Find => Ok(parse_find(words).map(Command::Call)),
    }
}

// The command that the words of a line make, if they make one.
pub(crate) fn parse_command(heap: Global, words: &[&[u8]]) -> Result<Option<Command>, AllocError>
    ensures { IfOk result (λ o. option_map asked o ≡ command_words (map text words.now)) }
{
    let Some((word, operands)) = words.split_first() else {
        return Ok(None);
    };
    let Some(verb) = Verb::from_word(*word) else {
        return Ok(None);
    };
    parse_behind(heap, verb, operands)
}
