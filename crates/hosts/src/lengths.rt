// How long the buffers are that a host lends to a call.
ghost use Rattle.std.specs.Prelude.{◌≡◌};
ghost use Rattle.accounts.specs.Receives.{pool_length};

use router::POOL_LENGTH;

const OUTPUT_LENGTH: usize = 4096;

/// How many octets the output has, and how many the pool: the router refuses a pool of other than 32,768.
#[derive(Clone, Copy)]
pub struct Lengths {
    pub output: usize,
    pub pool: usize,
}

impl Lengths {
    /// Those that every call takes.
    pub fn usual() -> Lengths
        ensures { (result.output ≡ «OUTPUT_LENGTH») × (result.pool ≡ pool_length) }
    {
        Lengths {
            output: OUTPUT_LENGTH,
            pool: POOL_LENGTH,
        }
    }
}
