// The pool, which has a slot for the octets of each flight. It is lent by the host at each call.
ghost use Rattle.std.specs.Prelude.{◌≡◌, ◌*◌, ◌<◌, ◌≤◌, length};
ghost use Rattle.accounts.specs.Receives.{pool_length, most_flights};
ghost use Rattle.nas.specs.Returns.{overwritten};
ghost use Rattle.runs.specs.Models.{slot_length, slot_octets};

use flights::SLOTS;
use nas::MAX_PAYLOAD;

// The longest payload fits.
const SLOT_LENGTH: usize = MAX_PAYLOAD;

/// How many octets the pool has that a host lends to the calls: 16 slots of 2,048.
pub const POOL_LENGTH: usize = SLOTS * SLOT_LENGTH;

fn copy_octets(target: &mut [u8], octets: &[u8])
    requires { length target.old ≡ length octets.now }
    ensures { target.new ≡ octets.now }
{
    target.copy_from_slice(octets);
}

// The slot begins with the payload, and no other octet changes.
pub(crate) fn fill_slot(pool: &mut [u8], slot: usize, payload: &[u8])
    requires whole { length pool.old ≡ pool_length }
    requires within { slot < most_flights }
    requires short { length payload.now ≤ slot_length }
    ensures { pool.new ≡ overwritten pool.old (slot_length * slot) payload.now }
{
    let start = SLOT_LENGTH * slot;
    let end = start + payload.len();
    copy_octets(&mut pool[start..end], payload);
}

// The first octets of the slot.
pub(crate) fn slot_part(pool: &[u8], slot: usize, count: usize) -> &[u8]
    requires whole { length pool.now ≡ pool_length }
    requires within { slot < most_flights }
    requires short { count ≤ slot_length }
    ensures octets { result.now ≡ slot_octets pool.now slot count }
    ensures length { length result.now ≡ count }
{
    let start = SLOT_LENGTH * slot;
    &pool[start..start + count]
}
