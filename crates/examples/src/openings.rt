// Refusal 16: what is opened or made is out of bounds, and what is just in bounds.
use crate::small_core::{COMMON, CONFIGURATION, EMERGENCY, LINE, NAMES, SESSION_1};
use crate::tally::Tally;
use codes::{DnnNumber, SetupError, SliceDnn};
use control::{ControlRow, ControlTable};
use directories::{ListDirectory, ServiceLine, TurningDirectory};
use flat::{ContextRow, FlatStore};
use grid::GridStore;
use names::Book;
use records::Configuration;
use router::{Router, Unopened};
use std::alloc::Global;
use stores::Store;

// The number of the refusal, if one came. Want of memory has none, and counts as 0.
fn refusal_in<T: Drop>(made: Result<T, SetupError>) -> Option<u8> {
    match made {
        Ok(_) => None,
        Err(SetupError::Refused(refusal)) => Some(u8::from(refusal)),
        Err(SetupError::OutOfMemory) => Some(0),
    }
}

// ---- books

const BAD_NAMES: [&[&[u8]]; 6] = [
    &[],
    &[b""],
    &[b"loom", b""],
    &[&[b'a'; 101]],
    &[b"loom", b"loom"],
    &[b"loom", b"sos", b"loom"],
];

const GOOD_NAMES: [&[&[u8]]; 4] = [&[b"a"], &[&[b'a'; 100]], &[b"loom", b"Loom"], &NAMES];

// So many names of one octet.
fn make_long_book(heap: Global, count: usize) -> Result<Book, SetupError> {
    let mut octets = [0; 65];
    for (octet, number) in octets.iter_mut().zip(0..65) {
        *octet = number;
    }
    let mut names = Vec::new(heap);
    for name in octets.chunks(1).take(count) {
        names.push(name)?;
    }
    Book::new(heap, names.as_slice())
}

fn compare_books(tally: &mut Tally<'_>, heap: Global) {
    for names in BAD_NAMES {
        tally.compare("bad names", refusal_in(Book::new(heap, names)) == Some(16));
    }
    for names in GOOD_NAMES {
        tally.compare("good names", refusal_in(Book::new(heap, names)).is_none());
    }
    tally.compare("64 names", refusal_in(make_long_book(heap, 64)).is_none());
    tally.compare("65 names", refusal_in(make_long_book(heap, 65)) == Some(16));
}

// ---- routers

// What a router is opened with, and whether that is refused.
#[derive(Clone, Copy)]
struct Opening {
    default_dnn: DnnNumber,
    emergency_dnn: DnnNumber,
    first: u32,
    // A context stands in the store.
    stands: bool,
    is_refused: bool,
}

const REFUSED: Opening = Opening {
    default_dnn: 1,
    emergency_dnn: 2,
    first: 1,
    stands: false,
    is_refused: true,
};

const OPENED: Opening = Opening {
    is_refused: false,
    ..REFUSED
};

const OPENINGS: [Opening; 10] = [
    Opening {
        default_dnn: 0,
        ..REFUSED
    },
    Opening {
        default_dnn: 3,
        ..REFUSED
    },
    Opening {
        emergency_dnn: 0,
        ..REFUSED
    },
    Opening {
        emergency_dnn: 3,
        ..REFUSED
    },
    Opening {
        first: 0,
        ..REFUSED
    },
    Opening {
        stands: true,
        ..REFUSED
    },
    OPENED,
    Opening {
        default_dnn: 2,
        ..OPENED
    },
    Opening {
        emergency_dnn: 1,
        ..OPENED
    },
    Opening {
        first: 4_294_967_295,
        ..OPENED
    },
];

// What came of an opening, and the store as it is behind it.
fn open<S: Store>(
    heap: Global,
    book: &Book,
    store: S,
    opening: Opening,
) -> (Result<(), SetupError>, S) {
    let configuration = Configuration {
        default: SliceDnn {
            dnn: opening.default_dnn,
            ..COMMON
        },
        emergency: SliceDnn {
            dnn: opening.emergency_dnn,
            ..EMERGENCY
        },
        ..CONFIGURATION
    };
    match Router::open(heap, book, configuration, opening.first, store) {
        Ok(router) => (Ok(()), router.into_store()),
        Err(Unopened { error, store }) => (Err(error), store),
    }
}

fn compare_routers<S: Store + Drop>(
    tally: &mut Tally<'_>,
    heap: Global,
    mut store: S,
) -> Result<(), SetupError> {
    let book = Book::new(heap, &NAMES)?;
    for opening in OPENINGS {
        tally.next_call();
        if opening.stands {
            let _ = store.put(SESSION_1);
        }
        let (opened, left) = open(heap, &book, store, opening);
        store = left;
        tally.compare(
            "opening a router",
            refusal_in(opened) == opening.is_refused.then_some(16),
        );
        tally.compare(
            "the store after an opening",
            store.remove(SESSION_1.pdu_session()) == opening.stands,
        );
    }
    Ok(())
}

// ---- rows

fn flat_refusal(rows: &mut [ContextRow]) -> Option<u8> {
    match FlatStore::new(rows) {
        Ok(_) => None,
        Err(handed_back) => Some(u8::from(handed_back.refusal)),
    }
}

fn control_refusal(rows: &mut [ControlRow]) -> Option<u8> {
    match ControlTable::new(rows) {
        Ok(_) => None,
        Err(handed_back) => Some(u8::from(handed_back.refusal)),
    }
}

fn compare_rows(tally: &mut Tally<'_>) {
    let mut rows = [ContextRow::free(); 257];
    for (count, refusal) in [
        (0, Some(16)),
        (15, Some(16)),
        (16, None),
        (256, None),
        (257, Some(16)),
    ] {
        let count = rows.len().min(count);
        tally.compare("context rows", flat_refusal(&mut rows[..count]) == refusal);
    }
    let mut rows = [ControlRow::free(); 65];
    for (count, refusal) in [(0, Some(16)), (1, None), (64, None), (65, Some(16))] {
        let count = rows.len().min(count);
        tally.compare(
            "control rows",
            control_refusal(&mut rows[..count]) == refusal,
        );
    }
}

// ---- directories

const BAD_LINES: [ServiceLine; 3] = [
    ServiceLine { smf: 0, ..LINE },
    ServiceLine { dnn: 0, ..LINE },
    ServiceLine { dnn: 65, ..LINE },
];

fn numbered(i: u32) -> ServiceLine {
    ServiceLine { slice: i, ..LINE }
}

fn compare_lists(tally: &mut Tally<'_>, heap: Global) {
    let mut directory = ListDirectory::new(heap);
    for line in BAD_LINES {
        tally.compare("a bad line", refusal_in(directory.add(line)) == Some(16));
    }
    for i in 0..64 {
        tally.compare("64 lines", refusal_in(directory.add(numbered(i))).is_none());
    }
    tally.compare("a 65th line", refusal_in(directory.add(LINE)) == Some(16));
}

// A pair of slice and SMF that is there takes more DNNs, however many pairs there are.
fn compare_turning(tally: &mut Tally<'_>, heap: Global) {
    let mut directory = TurningDirectory::new(heap);
    for line in BAD_LINES {
        tally.compare("a bad line", refusal_in(directory.add(line)) == Some(16));
    }
    for i in 0..64 {
        tally.compare("64 pairs", refusal_in(directory.add(numbered(i))).is_none());
    }
    tally.compare("a 65th pair", refusal_in(directory.add(LINE)) == Some(16));
    let more = ServiceLine {
        dnn: 64,
        ..numbered(63)
    };
    tally.compare(
        "a pair that is there",
        refusal_in(directory.add(more)).is_none(),
    );
}

fn compare_all(tally: &mut Tally<'_>, heap: Global) -> Result<(), SetupError> {
    tally.begin("routers", "flat store");
    let mut rows = [ContextRow::free(); 16];
    if let Ok(store) = FlatStore::new(&mut rows) {
        compare_routers(tally, heap, store)?;
    }
    tally.begin("routers", "grid store");
    compare_routers(tally, heap, GridStore::new())?;
    tally.begin("books", "no store");
    compare_books(tally, heap);
    tally.begin("rows", "no store");
    compare_rows(tally);
    tally.begin("lists", "no store");
    compare_lists(tally, heap);
    tally.begin("turning directories", "no store");
    compare_turning(tally, heap);
    Ok(())
}

pub(crate) fn run_openings(tally: &mut Tally<'_>, heap: Global) -> anyhow::Result<()> {
    if compare_all(tally, heap).is_err() {
        anyhow::bail!("no memory for openings");
    }
    tally.print(
        "refusal 16: routers, books, rows and lines just out of bounds; not those just in bounds",
    )?;
    Ok(())
}
