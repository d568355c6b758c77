// The first word of a command.
ghost use Rattle.std.specs.Prelude.{◌≡◌};
ghost use Rattle.hall.specs.Verbs.{verb_word, verb_in};

use crate::word::{Worded, named_by};

#[derive(Clone, Copy)]
pub(crate) enum Verb {
    Read,
    Book,
    Store,
    Directory,
    Serve,
    Mark,
    Control,
    Set,
    Clear,
    Open,
    Ue,
    Subscribe,
    Know,
    Receive,
    Payload,
    Taken,
    Failed,
    Park,
    Pick,
    Released,
    Find,
}

impl Worded for Verb {
    ghost word = { verb_word };

    fn word(self) -> &'static str {
        match self {
            Verb::Read => "read",
            Verb::Book => "book",
            Verb::Store => "store",
            Verb::Directory => "directory",
            Verb::Serve => "serve",
            Verb::Mark => "mark",
            Verb::Control => "control",
            Verb::Set => "set",
            Verb::Clear => "clear",
            Verb::Open => "open",
            Verb::Ue => "ue",
            Verb::Subscribe => "subscribe",
            Verb::Know => "know",
            Verb::Receive => "receive",
            Verb::Payload => "payload",
            Verb::Taken => "taken",
            Verb::Failed => "failed",
            Verb::Park => "park",
            Verb::Pick => "pick",
            Verb::Released => "released",
            Verb::Find => "find",
        }
    }
}

impl Verb {
    const ALL: [Verb; 21] = [
        Verb::Read,
        Verb::Book,
        Verb::Store,
        Verb::Directory,
        Verb::Serve,
        Verb::Mark,
        Verb::Control,
        Verb::Set,
        Verb::Clear,
        Verb::Open,
        Verb::Ue,
        Verb::Subscribe,
        Verb::Know,
        Verb::Receive,
        Verb::Payload,
        Verb::Taken,
        Verb::Failed,
        Verb::Park,
        Verb::Pick,
        Verb::Released,
        Verb::Find,
    ];

    // The verb that the word is, if it is one. No `TryFrom`, as an error would have nothing to say.
    pub(crate) fn from_word(word: &[u8]) -> Option<Verb>
        ensures { result ≡ verb_in word.now }
    {
        named_by(&Verb::ALL, word)
    }
}
