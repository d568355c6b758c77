// A line of a scenario.
ghost use Rattle.std.specs.Prelude.{◌≡◌, IfOk, string_bytes};
ghost use Rattle.playing.specs.Lines.{Unended, WordsOf, error_line};

use scenario::{begins_with, split_words};
use std::alloc::{AllocError, Global};

/// A line without the line feed that ends it, if one does.
pub fn without_feed(line: &[u8]) -> &[u8]
    ensures { Unended line.now result.now }
{
    line.strip_suffix(b"\n").unwrap_or(line)
}

/// The words of a line that asks for something. A comment doesn't, nor does a line with no word.
pub fn line_words<'a>(heap: Global, line: &'a [u8]) -> Result<Option<Vec<&'a [u8]>>, AllocError>
    ensures { IfOk result (λ o. WordsOf line.now o) }
{
    let words = split_words(heap, line)?;
    if begins_with(line, b'#') || words.is_empty() {
        return Ok(None);
    }
    Ok(Some(words))
}

/// What the line of this number prints if it is no command: `error` and the number.
pub fn error_line(heap: Global, number: u64) -> Result<String, AllocError>
    ensures { IfOk result (λ s. string_bytes s ≡ error_line number) }
{
    format!(in heap; "error {number}")
}
