// A word that is a decimal number.
ghost use Rattle.std.specs.Prelude.{◌≡◌, ℕ, ◌^◌, ◌<◌, Some, decimal};
ghost use Rattle.scenario.specs.Number.{number_in};

use crate::words::begins_with;

/// The number that a word writes in decimal digits; `None` where the word is no number, or one that
/// 64 bits do not hold. What is printed of a number reads back as that number.
#[tactic(auto, using(crate::proofs::Decimals::numbers))]
pub fn parse_number(word: &[u8]) -> Option<u64>
    ensures value { result ≡ number_in word.now }
    ensures reads_back { (n : ℕ) → n < 2 ^ 64 → word.now ≡ decimal n → result ≡ Some n }
{
    // `parse` takes a sign, and a number in a scenario has none.
    if begins_with(word, b'+') {
        return None;
    }
    std::str::from_utf8(word).ok()?.parse().ok()
}
