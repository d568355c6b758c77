// Refusal 17 for tickets that are open in another router.
use crate::example::{End, Example, Step};
use crate::host::Host;
use crate::small_core::{EXAMPLE, LINE, PAYLOAD, REPLY, SENDING, SESSION_1};
use crate::tally::Tally;
use codes::{Refusal, SetupError};
use control::{ControlRow, ControlTable};
use directories::ListDirectory;
use flat::{ContextRow, FlatStore};
use grid::GridStore;
use router::POOL_LENGTH;
use std::alloc::Global;
use stores::Store;

// What happens at the router that does not know the ticket, between two tries with it.
const BETWEEN: Example = Example {
    name: "another router's ticket",
    steps: &[Step::Receive(SENDING, REPLY, End::Parked)],
    contexts: &[SESSION_1],
    ..EXAMPLE
};

// Its own flight is as it was.
const BEHIND: Example = Example {
    steps: &[
        Step::Payload(1, POOL_LENGTH, Ok(PAYLOAD)),
        Step::Pick(1, End::Taken),
    ],
    ..BETWEEN
};

// Its numbers are others.
const OTHER: Example = Example {
    first: 100,
    ..EXAMPLE
};

fn run<S: Store + Drop>(
    tally: &mut Tally<'_>,
    heap: Global,
    store: S,
    other_store: S,
) -> Result<(), SetupError> {
    let mut rows = [ControlRow::free(); 1];
    let mut other_rows = [ControlRow::free(); 1];
    let Ok(controls) = ControlTable::new(&mut rows) else {
        return Err(Refusal::Opening.into());
    };
    let Ok(other_controls) = ControlTable::new(&mut other_rows) else {
        return Err(Refusal::Opening.into());
    };
    let mut directory = ListDirectory::new(heap);
    directory.add(LINE)?;
    let mut host = Host::open(heap, &BETWEEN, store, controls)?;
    let mut other = Host::open(heap, &OTHER, other_store, other_controls)?;
    host.refuse_foreign(tally, &mut directory, &mut other);
    host.play(tally, &mut directory, &BETWEEN)?;
    host.refuse_foreign(tally, &mut directory, &mut other);
    host.play(tally, &mut directory, &BEHIND)?;
    Ok(())
}

fn run_over_flat(tally: &mut Tally<'_>, heap: Global) -> Result<(), SetupError> {
    tally.begin(BETWEEN.name, "flat store");
    let mut rows = [ContextRow::free(); 16];
    let mut other_rows = [ContextRow::free(); 16];
    let Ok(store) = FlatStore::new(&mut rows) else {
        return Err(Refusal::Opening.into());
    };
    let Ok(other_store) = FlatStore::new(&mut other_rows) else {
        return Err(Refusal::Opening.into());
    };
    run(tally, heap, store, other_store)
}

fn run_over_grid(tally: &mut Tally<'_>, heap: Global) -> Result<(), SetupError> {
    tally.begin(BETWEEN.name, "grid store");
    run(tally, heap, GridStore::new(), GridStore::new())
}

pub(crate) fn run_foreign_tickets(tally: &mut Tally<'_>, heap: Global) -> anyhow::Result<()> {
    if run_over_flat(tally, heap).is_err() || run_over_grid(tally, heap).is_err() {
        anyhow::bail!("no memory for two routers");
    }
    tally.print(
        "refusal 17: another router's ticket in payload, taken, park and failed; not in its own",
    )?;
    Ok(())
}
