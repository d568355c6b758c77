// The book of DNN names, which numbers them from 1.
ghost use Rattle.std.specs.Prelude.{◌≡◌, ◌<◌, ◌≤◌, length, IfOk, IfErr, Decides};
ghost use Rattle.names.specs.Names.{max_names, names_of, Numbers, Follows, FollowsEarlier, GoodNames};
ghost use Rattle.names.specs.OwnNames.{own_names, lent_names, Made, Unmade};

use crate::name::{MAX_NAME, Name, place_in};
use codes::{DnnNumber, Refusal, SetupError};
use std::alloc::{AllocError, Global};
use std::convert::AsSlice;
use std::marker::Model;

/// How many names a book has at most.
pub const MAX_NAMES: usize = 64;

/// The DNN names that a core knows, numbered from 1 in their order: 1 to 64 names of 1 to 100
/// octets each, of which no two are the same. Their form (TS 23.003 clause 9.1) is not judged.
#[derive(Drop)]
pub struct Book {
    names: Vec<Name>,
}

// A contract sees a book as its names, in their order.
impl Model for Book {
    ghost use Rattle.std.specs.Prelude.{ℕ, List};
    ghost use Rattle.names.specs.Names.{GoodNames};
    ghost use Rattle.names.specs.OwnNames.{own_names};

    ghost Value = { List (List ℕ) };

    ghost view = { λ b. own_names b.names.items };

    ghost invariant = { λ b. GoodNames (own_names b.names.items) };
}

// Whether a book can have `name` behind the earlier ones.
fn follows(earlier: &[&[u8]], name: &[u8]) -> bool
    ensures { Decides result (Follows (lent_names earlier.now) name.now) }
{
    !name.is_empty() && name.len() <= MAX_NAME && place_in(earlier, name).is_none()
}

// Whether the name at a place can follow those before it.
fn follows_earlier(names: &[&[u8]], place: usize) -> bool
    requires { place < length names.now }
    ensures { Decides result (FollowsEarlier (lent_names names.now) place) }
{
    follows(&names[..place], names[place])
}

// Whether a book can have these names.
fn good_names(names: &[&[u8]]) -> bool
    ensures { Decides result (GoodNames (lent_names names.now)) }
{
    !names.is_empty()
        && names.len() <= MAX_NAMES
        && (0..names.len()).all(|place| follows_earlier(names, place))
}

// A name of its own with the same octets.
fn copy_name(heap: Global, name: &[u8]) -> Result<Name, AllocError>
    ensures { IfOk result (λ n. n.octets.items ≡ name.now) }
{
    let octets = name.to_vec(heap)?;
    Ok(Name { octets })
}

// Names of their own with the same octets.
fn copy_names<N: AsSlice<u8>>(heap: Global, names: &[N]) -> Result<Vec<Name>, AllocError>
    ensures { IfOk result (λ v. own_names v.items ≡ names_of N.AsSlice.items names.now) }
{
    names
        .iter()
        .map(|name| copy_name(heap, name.as_slice()))
        .try_collect(heap)
}

impl Book {
    /// A book of these names, which it copies. Names that no book can have are refused as out of
    /// bounds, before any memory is asked for; else only a lack of memory is an error.
    pub fn new(heap: Global, names: &[&[u8]]) -> Result<Book, SetupError>
        ensures made { IfOk result (Made (lent_names names.now)) }
        ensures unmade { IfErr result (Unmade (lent_names names.now)) }
    {
        if !good_names(names) {
            return Err(SetupError::from(Refusal::Opening));
        }
        let names = copy_names(heap, names)?;
        Ok(Book { names })
    }

    /// The number of the name that is the same, or 0, which stands for a name that is not in the
    /// book.
    pub fn number_of(&self, octets: &[u8]) -> DnnNumber
        ensures { Numbers self.now octets.now result }
    {
        place_in(self.names.as_slice(), octets).map_or(0, |i| (i + 1) as DnnNumber)
    }

    /// A book of its own with the same names. Only a lack of memory is an error.
    pub fn try_clone(&self, heap: Global) -> Result<Book, AllocError>
        ensures same { IfOk result (λ b. b ≡ self.now) }
        ensures good { IfOk result (λ b. GoodNames b) }
    {
        let names = copy_names(heap, self.names.as_slice())?;
        Ok(Book { names })
    }

    /// How many names there are, which is never 0. Whoever asks learns that they are good names.
    pub fn len(&self) -> usize
        ensures value { result ≡ length self.now }
        ensures bounds { (0 < result) × (result ≤ max_names) }
        ensures good { GoodNames self.now }
    {
        self.names.len()
    }
}
