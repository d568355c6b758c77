// A word of octets: two hexadecimal digits each, or `-` where there are none.
ghost use Rattle.std.specs.Prelude.{◌≡◌, ℕ, ◌<◌, List, IfOk, Some, vec_items};
ghost use Rattle.std.specs.Option.{option_map};
ghost use Rattle.std.specs.List.{AllByRecursion};
ghost use Rattle.printing.specs.Octets.{octets_text};
ghost use Rattle.scenario.specs.Octets.{digit_in, octet_of, octet_in, pairs_in, octets_in};

use std::alloc::{AllocError, Global};

fn digit_value(digit: u8) -> Option<u8>
    ensures { result ≡ digit_in digit }
{
    char::from(digit).to_digit(16).map(|value| value as u8)
}

// The octet that two digits write.
pub(crate) fn octet_value(high: u8, low: u8) -> Option<u8>
    ensures { result ≡ octet_of (digit_in high) (digit_in low) }
{
    Some(digit_value(high)? * 16 + digit_value(low)?)
}

/// The octet that a word writes; `None` where the word is not two hexadecimal digits.
pub fn parse_octet(word: &[u8]) -> Option<u8>
    ensures { result ≡ octet_in word.now }
{
    let &[high, low] = word else {
        return None;
    };
    octet_value(high, low)
}

// `None` where the word is not pairs of digits.
#[tactic(auto, using(crate::proofs::Pairs::pairs))]
fn parse_pairs(heap: Global, word: &[u8]) -> Result<Option<Vec<u8>>, AllocError>
    ensures { IfOk result (λ o. option_map vec_items o ≡ pairs_in word.now) }
{
    if word.len() % 2 != 0 {
        return Ok(None);
    }
    let mut octets = Vec::new(heap);
    // A `for`: the library says nothing yet of what `collect` into an `Option` gives.
    for pair in word.chunks_exact(2) {
        let Some(octet) = parse_octet(pair) else {
            return Ok(None);
        };
        octets.push(octet)?;
    }
    Ok(Some(octets))
}

/// The octets that a word writes, none for `-`; `None` where the word is neither `-` nor pairs of
/// hexadecimal digits. Only a lack of memory is an error. What is printed of octets reads back as
/// those octets.
#[tactic(auto, using(crate::proofs::Pairs::octets_read))]
pub fn parse_octets(heap: Global, word: &[u8]) -> Result<Option<Vec<u8>>, AllocError>
    ensures value { IfOk result (λ o. option_map vec_items o ≡ octets_in word.now) }
    ensures reads_back { IfOk result (λ o. (xs : List ℕ) →
        AllByRecursion (λ x. x < 256) xs → word.now ≡ octets_text xs
        → option_map vec_items o ≡ Some xs) }
{
    match word {
        [] => Ok(None),
        [b'-'] => Ok(Some(Vec::new(heap))),
        _ => parse_pairs(heap, word),
    }
}
