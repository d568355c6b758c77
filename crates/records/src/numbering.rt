// Which DNN numbers are those of a book.
ghost use Rattle.std.specs.Prelude.{◌≡◌, length};
ghost use Rattle.records.specs.Records.{in_book};

use codes::DnnNumber;
use names::Book;

// Whether the book has a name of this number.
pub(crate) fn has_number(book: &Book, dnn: DnnNumber) -> bool
    ensures { result ≡ in_book (length book.now) dnn }
{
    dnn > 0 && dnn as usize <= book.len()
}
