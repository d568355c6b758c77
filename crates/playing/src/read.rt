// The command `read`: its operand, and the line that it prints.
ghost use Rattle.std.specs.Prelude.{◌≡◌, map, Some, IfOk, string_bytes, vec_items};
ghost use Rattle.std.specs.Option.{option_map};
ghost use Rattle.nas.specs.Uplinks.{read};
ghost use Rattle.nas.specs.Views.{answer};
ghost use Rattle.scenario.specs.Words.{text};
ghost use Rattle.playing.specs.Lines.{operand_in, read_line};

use nas::{Refusal, Uplink, read_uplink};
use printing::{Octets, OrAbsent, Slice};
use scenario::parse_octets;
use std::alloc::{AllocError, Global};
use std::fmt;

/// The octets of the one word behind `read`; none where there is another number of words, or the word is
/// not octets.
pub fn read_operand(heap: Global, words: &[&[u8]]) -> Result<Option<Vec<u8>>, AllocError>
    ensures { IfOk result (λ o. option_map vec_items o ≡ operand_in (map text words.now)) }
{
    let [word] = words else {
        return Ok(None);
    };
    parse_octets(heap, *word)
}

/// What reading a message made of it, to be written as the line that says so.
#[derive(Clone, Copy, Debug)]
pub struct ReadReply<'a>(pub Result<Uplink<'a>, Refusal>);

impl fmt::Display for ReadReply<'_> {
    ghost output = { λ r. Some (read_line (answer r.0)) };

    fn fmt<W: fmt::Write>(&self, f: &mut fmt::Formatter<W>) -> fmt::Result {
        match self.0 {
            Ok(uplink) => {
                let payload = Octets(uplink.payload);
                let session = uplink.session;
                let old = OrAbsent(uplink.old_session);
                let request = OrAbsent(uplink.request_type.map(u8::from));
                let slice = OrAbsent(uplink.slice.map(Slice));
                let dnn = Octets(uplink.dnn.unwrap_or(&[]));
                write!(
                    f,
                    "read payload {payload} session {session} old {old} request {request} slice {slice} dnn {dnn}"
                )
            }
            Err(refusal) => write!(f, "read refused {}", u8::from(refusal)),
        }
    }
}

/// What reading these octets as a message prints.
pub fn read_line(heap: Global, octets: &[u8]) -> Result<String, AllocError>
    ensures { IfOk result (λ s. string_bytes s ≡ read_line (read octets.now)) }
{
    let reply = ReadReply(read_uplink(octets));
    format!(in heap; "{reply}")
}
