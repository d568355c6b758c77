// What plays a scenario: it does what each line asks, and prints what the line answers.
ghost use Rattle.std.specs.Prelude.{IfNone, IfOk, None, string_bytes};
ghost use Rattle.std.specs.Option.{option_map};
ghost use Rattle.std.specs.Prelude.{◌≡◌};
ghost use Rattle.hall.specs.Calls.{called};
ghost use Rattle.hall.specs.Ends.{Outcome, outcome_of};
ghost use Rattle.hall.specs.Lines.{Printed, PrintedIf, Answers};
ghost use Rattle.hall.specs.Outcomes.{TellsDone, done_line};
ghost use Rattle.hall.specs.Replies.{CallLine, note_verb};
ghost use Rattle.hall.specs.declared.verb.Verb.TheVariants as verbs;
ghost use Rattle.hall.specs.Readings.{asked};

use crate::call::Call;
use crate::command::{Command, parse_command};
use crate::hall_router::HallRouter;
use crate::not_done::NotDone;
use crate::opening::Opening;
use crate::outcome::{not_done_line, outcome_line};
use crate::play_error::PlayError;
use crate::stage::Stage;
use crate::ue_note::UeNote;
use crate::verb::Verb;
use crate::word::Word;
use playing::{LinePlayer, error_line, line_words, read_line};
use std::alloc::AllocError;
use std::mem;

// It has no `Drop`, as a router that is open has none: `end` ends that.
pub(crate) struct Player<'a> {
    stage: Stage<'a>,
    router: HallRouter<'a>,
}

impl<'a> Player<'a> {
    // No router is open yet.
    pub(crate) fn new(stage: Stage<'a>) -> Player<'a> {
        Player {
            stage,
            router: HallRouter::Closed,
        }
    }

    // Ends the router that is open, if one is.
    pub(crate) fn end(self) {
        let Player { stage, router } = self;
        drop(stage);
        router.end();
    }

    // The line of what was done, which is the verb alone, or the line that says why it was not.
    fn done_line(
        &self,
        number: u64,
        verb: Verb,
        done: Result<(), NotDone>,
    ) -> Result<String, AllocError>
        ensures { IfOk result (λ s. TellsDone number verb (outcome_of done) (string_bytes s)) }
    {
        let heap = self.stage.rt.alloc();
        match done {
            Ok(()) => format!(in heap; "{}", Word(verb)),
            Err(not_done) => not_done_line(heap, number, verb, not_done),
        }
    }

    // Opens a router in the place of the one that is open, which is ended then. It is not inlined, so that no
    // other line pays for the room on the stack that a grid store takes.
    #[inline(never)]
    fn open_router(&mut self, opening: Opening) -> Result<(), NotDone> {
        let router = self.stage.open_router(opening)?;
        mem::replace(&mut self.router, router).end();
        Ok(())
    }

    fn open_line(&mut self, number: u64, opening: Opening) -> Result<String, AllocError>
        ensures { IfOk result (λ s. (o : Outcome) × (string_bytes s ≡ done_line number verbs.Open o)) }
    {
        let done = self.open_router(opening);
        self.done_line(number, Verb::Open, done)
    }

    fn note_line(&mut self, number: u64, note: UeNote) -> Result<String, AllocError>
        ensures { IfOk result (λ s.
            (o : Outcome) × (string_bytes s ≡ done_line number (note_verb note) o)) }
    {
        let done = note.enter(self.stage.rt.alloc(), &mut self.stage.ues);
        self.done_line(number, note.verb(), done)
    }

    fn call_line(&mut self, number: u64, call: &Call) -> Result<String, AllocError>
        ensures { IfOk result (λ s. (o : Outcome) × CallLine number (called call.now) o (string_bytes s)) }
    {
        match self.router.ask(&mut self.stage, call) {
            Ok(line) => Ok(line),
            Err(not_done) => not_done_line(self.stage.rt.alloc(), number, call.verb(), not_done),
        }
    }

    // What a line of this number prints that asks for `command`.
    fn command_line(&mut self, number: u64, command: &Command) -> Result<String, AllocError>
        ensures { IfOk result (λ s.
            Printed self.old.stage.hall.directory self.old.stage.table number
            (asked command.now) (string_bytes s)) }
    {
        let heap = self.stage.rt.alloc();
        match command {
            Command::Read(octets) => read_line(heap, octets.as_slice()),
            Command::Change(change) => {
                let done = self.stage.apply(change);
                outcome_line(heap, number, change, done)
            }
            Command::Open(opening) => self.open_line(number, *opening),
            Command::Note(note) => self.note_line(number, *note),
            Command::Call(call) => self.call_line(number, call),
        }
    }

    // The same, where the line may ask for nothing that there is.
    fn answer_line(&mut self, number: u64, command: Option<Command>) -> Result<String, AllocError>
        ensures { IfOk result (λ s.
            PrintedIf self.old.stage.hall.directory self.old.stage.table number
            (option_map asked command) (string_bytes s)) }
    {
        match command {
            Some(command) => self.command_line(number, &command),
            None => error_line(self.stage.rt.alloc(), number),
        }
    }

    // What the line of this number prints, if it prints anything. If not, nothing has moved.
    fn answer(&mut self, number: u64, line: &[u8]) -> Result<Option<String>, AllocError>
        ensures answers { IfOk result (λ o.
            Answers self.old.stage.hall.directory self.old.stage.table number
            line.now (option_map string_bytes o)) }
        ensures quiet { IfOk result (λ o. IfNone o (self.new ≡ self.old)) }
    {
        let heap = self.stage.rt.alloc();
        let Some(words) = line_words(heap, line)? else {
            return Ok(None);
        };
        let command = parse_command(heap, words.as_slice())?;
        Ok(Some(self.answer_line(number, command)?))
    }
}

impl LinePlayer for Player<'_> {
    type Error = PlayError;

    fn play_line(&mut self, number: u64, line: &[u8]) -> Result<(), PlayError>
        ensures renewed { IfOk result (λ _.
            self.old.stage.hall.wanted_rows ≡ None → self.new.stage.hall.wanted_rows ≡ None) }
    {
        // A line with no answer asks for nothing, so for no control table either.
        if let Some(text) = self.answer(number, line)? {
            self.stage.rt.println(text)?;
            self.stage.renew_table()?;
        }
        Ok(())
    }
}
