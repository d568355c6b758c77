// A slice code as eight hexadecimal digits.
ghost use Rattle.std.specs.Prelude.{Some};
ghost use Rattle.printing.specs.Octets.{octets_text};
ghost use Rattle.printing.specs.Slice.{slice_octets};

use crate::octets::Octets;
use std::fmt;
use std::fmt::Display;

/// A slice code, to be written as the four octets that it has.
#[derive(Clone, Copy)]
pub struct Slice(pub u32);

impl fmt::Display for Slice {
    ghost output = { λ s. Some (octets_text (slice_octets s.0)) };

    fn fmt<W: fmt::Write>(&self, f: &mut fmt::Formatter<W>) -> fmt::Result {
        Octets(&self.0.to_be_bytes()).fmt(f)
    }
}
