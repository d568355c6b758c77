// A word that is a slice code: eight hexadecimal digits.
ghost use Rattle.std.specs.Prelude.{◌≡◌, ℕ, ◌^◌, ◌<◌, Some};
ghost use Rattle.printing.specs.Octets.{octets_text};
ghost use Rattle.printing.specs.Slice.{slice_octets};
ghost use Rattle.scenario.specs.Slice.{slice_in};

use crate::octets::octet_value;

/// The slice code that a word writes, the SST first; `None` where the word is not eight hexadecimal
/// digits. What is printed of a slice code reads back as that code.
#[tactic(auto, using(crate::proofs::Codes::slice_back))]
pub fn parse_slice(word: &[u8]) -> Option<u32>
    ensures value { result ≡ slice_in word.now }
    ensures reads_back { (n : ℕ) → n < 2 ^ 32 → word.now ≡ octets_text (slice_octets n)
        → result ≡ Some n }
{
    let &[a, b, c, d, e, f, g, h] = word else {
        return None;
    };
    Some(u32::from_be_bytes([
        octet_value(a, b)?,
        octet_value(c, d)?,
        octet_value(e, f)?,
        octet_value(g, h)?,
    ]))
}
