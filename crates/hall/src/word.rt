// Values that a scenario's text names by a word.
ghost use Rattle.std.specs.Prelude.{◌≡◌, ℕ, List, Some, map};
ghost use Rattle.std.specs.List.{find};
ghost use Rattle.std.specs.Str.{bytes_eq};
ghost use Rattle.scenario.specs.Words.{text};
ghost use Rattle.hall.specs.Changes.{of_one};

use std::fmt;

pub(crate) trait Worded: Copy {
    ghost word: { Self → List ℕ };

    fn word(self) -> &'static str
        ensures { result.now ≡ word self };
}

// Whether a word is this one. A function, since a chain over `==` itself is not proved.
pub(crate) fn is_word(word: &[u8], other: &[u8]) -> bool
    ensures { result ≡ bytes_eq word.now other.now }
{
    word == other
}

fn is_named<T: Worded>(value: T, text: &[u8]) -> bool
    ensures { result ≡ bytes_eq text.now (T.word value) }
{
    is_word(text, value.word().as_bytes())
}

// The first of the values that the text names.
pub(crate) fn named_by<T: Worded>(all: &[T], text: &[u8]) -> Option<T>
    ensures { result ≡ find (λ v. bytes_eq text.now (T.word v)) all.now }
{
    all.iter().copied().find(|value| is_named(*value, text))
}

// The value that the one word names; none where there is another number of words.
pub(crate) fn only_named<T: Worded>(all: &[T], words: &[&[u8]]) -> Option<T>
    ensures { result
        ≡ of_one (λ word. find (λ v. bytes_eq word (T.word v)) all.now) (map text words.now) }
{
    let [word] = words else {
        return None;
    };
    named_by(all, *word)
}

// A value, to be written as its word.
#[derive(Clone, Copy)]
pub(crate) struct Word<T>(pub(crate) T);

impl<T: Worded> fmt::Display for Word<T> {
    ghost output = { λ w. Some (T.word w.0) };

    fn fmt<W: fmt::Write>(&self, f: &mut fmt::Formatter<W>) -> fmt::Result {
        f.write_str(self.0.word())
    }
}
