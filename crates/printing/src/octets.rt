// Octets in print: two hexadecimal digits each, or `-` where there are none.
ghost use Rattle.std.specs.Prelude.{Some};
ghost use Rattle.printing.specs.Octets.{octets_text};

use std::fmt;

/// Octets, to be written as a scenario's text has them: two hexadecimal digits each, or `-` where
/// there are none.
#[derive(Clone, Copy)]
pub struct Octets<'a>(pub &'a [u8]);

impl fmt::Display for Octets<'_> {
    ghost output = { λ o. Some (octets_text o.0.now) };

    #[tactic(auto, using(crate::proofs::Digits::written_more))]
    fn fmt<W: fmt::Write>(&self, f: &mut fmt::Formatter<W>) -> fmt::Result {
        let octets = self.0;
        if octets.is_empty() {
            return f.write_str("-");
        }
        for &octet in octets {
            write!(f, "{octet:02X}")?;
        }
        Ok(())
    }
}
