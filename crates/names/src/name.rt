// The octets of a DNN as a name.
ghost use Rattle.std.specs.Prelude.{◌≡◌};
ghost use Rattle.names.specs.Names.{same_octet, Same, Numbers, names_of, numbered};

use std::convert::AsSlice;

/// How many octets the longest name has (TS 23.003 clause 9.1).
pub const MAX_NAME: usize = 100;

// Whether two octets are the same in a name.
fn same_octet(a: u8, b: u8) -> bool
    ensures { result ≡ same_octet a b }
{
    a == b
}

/// Whether two DNN names are the same, which they are octet by octet. Whatever compares names goes
/// by this and by no `==`, so that the rule for octets stands in one place.
pub fn same_name(a: &[u8], b: &[u8]) -> bool
    ensures { Same a.now b.now result }
{
    a.len() == b.len() && a.iter().zip(b).all(|(x, y)| same_octet(*x, *y))
}

// A name that owns its octets.
#[derive(Drop)]
pub struct Name {
    pub octets: Vec<u8>,
}

impl AsSlice<u8> for Name {
    ghost items = { λ n. n.octets.items };

    fn as_slice(&self) -> &[u8] {
        self.octets.as_slice()
    }
}

/// The place of the first name that is the same, from 0; none where there is none.
pub fn place_in<N: AsSlice<u8>>(names: &[N], octets: &[u8]) -> Option<usize>
    ensures { Numbers (names_of N.items names.now) octets.now (numbered result) }
{
    names
        .iter()
        .position(|name| same_name(name.as_slice(), octets))
}
