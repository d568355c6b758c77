// The words of a line.
ghost use Rattle.std.specs.Prelude.{◌≡◌, ℕ, List, map, IfOk};
ghost use Rattle.std.specs.List.{AllByRecursion};
ghost use Rattle.scenario.specs.Words.{text, begins_with, words, Word, spaced};

use std::alloc::{AllocError, Global};

const SPACE: u8 = 0x20;

/// Whether a text begins with this octet.
pub fn begins_with(text: &[u8], octet: u8) -> bool
    ensures { result ≡ begins_with octet text.now }
{
    text.first() == Some(&octet)
}

// The parts between spaces, without the empty ones. They borrow the line: only the list of them is
// allocated.
fn words_between<'a>(heap: Global, line: &'a [u8]) -> Result<Vec<&'a [u8]>, AllocError>
    ensures { IfOk result (λ v. map text v.items ≡ words line.now) }
{
    // A loop, and no `split`: over many spaces that takes two and a half times as long.
    let mut found = Vec::new(heap);
    let mut start = 0;
    for (i, octet) in line.iter().enumerate() {
        if *octet == SPACE {
            if start < i {
                found.push(&line[start..i])?;
            }
            start = i + 1;
        }
    }
    if start < line.len() {
        found.push(&line[start..])?;
    }
    Ok(found)
}

/// The words of a line, which are its parts between spaces without the empty ones; only a lack of
/// memory is an error. Words that a space joins come apart again.
#[tactic(auto, using(crate::proofs::Cuts::words_law))]
pub fn split_words<'a>(heap: Global, line: &'a [u8]) -> Result<Vec<&'a [u8]>, AllocError>
    ensures value { IfOk result (λ v. map text v.items ≡ words line.now) }
    ensures reads_back { IfOk result (λ v. (ws : List (List ℕ)) →
        AllByRecursion Word ws → line.now ≡ spaced ws → map text v.items ≡ ws) }
{
    words_between(heap, line)
}
