// What a message asks for.
ghost use Rattle.std.specs.Prelude.{◌≡◌};
ghost use Rattle.nas.specs.Views.{decoded};
ghost use Rattle.records.specs.Records.{plain};
ghost use Rattle.verdicts.specs.Cases.{asked};
ghost use Rattle.accounts.specs.Inquiries.{inquiry_of};

use nas::{Book, Uplink};
use records::{Configuration, UeRecord};
use verdicts::Inquiry;

/// A message of a UE, as it is judged under this configuration: its DNN goes by the number that the
/// book gives the name, 1 for the first, and by 0 where the book does not have it.
pub fn inquiry<'a>(
    uplink: &Uplink<'_>,
    ue: UeRecord<'a>,
    configuration: Configuration,
    book: &Book,
) -> Inquiry<'a>
    ensures { asked result ≡ inquiry_of book.now configuration (plain ue.entry) (decoded uplink.now) }
{
    Inquiry {
        record: ue,
        configuration,
        session: uplink.session,
        request_type: uplink.request_type,
        slice: uplink.slice,
        dnn: uplink.dnn.map(|name| book.number_of(name)),
    }
}
