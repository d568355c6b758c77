// A value that may be absent, which `-` stands for.
ghost use Rattle.printing.specs.Absent.{shown_or_dash};

use std::fmt;

/// A value that may be absent, which `-` stands for.
#[derive(Drop)]
pub struct OrAbsent<T>(pub Option<T>);

impl<T: fmt::Display> fmt::Display for OrAbsent<T> {
    ghost output = { λ o. shown_or_dash T.Display.output o.0 };

    fn fmt<W: fmt::Write>(&self, f: &mut fmt::Formatter<W>) -> fmt::Result {
        // A `match`: two closures, as `map_or_else` takes, cannot both hold `f`.
        match &self.0 {
            Some(value) => value.fmt(f),
            None => f.write_str("-"),
        }
    }
}
