// The opening that the words behind `open` ask for, if they do.
ghost use Rattle.std.specs.Prelude.{◌≡◌, map};
ghost use Rattle.scenario.specs.Words.{text};
ghost use Rattle.hall.specs.Numerals.{pair_of};
ghost use Rattle.hall.specs.Openings.{open_words};

use crate::opening::Opening;
use crate::parse_change::{parse_byte, parse_u32};
use codes::SliceDnn;
use records::Configuration;
use scenario::parse_slice;

#[tactic(auto, unfolding(crate::specs::Numerals::pair_of))]
fn slice_and_dnn(slice: &[u8], dnn: &[u8]) -> Option<SliceDnn>
    ensures { result ≡ pair_of slice.now dnn.now }
{
    Some(SliceDnn {
        slice: parse_slice(slice)?,
        dnn: parse_byte(dnn)?,
    })
}

pub(crate) fn parse_open(words: &[&[u8]]) -> Option<Opening>
    ensures { result ≡ open_words (map text words.now) }
{
    let [slice, dnn, emergency_slice, emergency_dnn, smf, first] = words else {
        return None;
    };
    let configuration = Configuration {
        default: slice_and_dnn(*slice, *dnn)?,
        emergency: slice_and_dnn(*emergency_slice, *emergency_dnn)?,
        static_emergency_smf: parse_byte(*smf)?,
    };
    Some(Opening {
        configuration,
        first: parse_u32(*first)?,
    })
}
