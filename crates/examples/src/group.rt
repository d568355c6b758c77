// Running the examples of a group, each over the stores that it is for.
use crate::example::{Example, Group, Services, Stores};
use crate::host::Host;
use crate::tally::Tally;
use codes::{Refusal, SetupError};
use control::{ControlRow, ControlTable};
use directories::{ListDirectory, ServiceLine, TurningDirectory};
use flat::{ContextRow, FlatStore};
use grid::GridStore;
use std::alloc::Global;
use stores::Store;

fn list(heap: Global, lines: &[ServiceLine]) -> Result<ListDirectory, SetupError> {
    let mut directory = ListDirectory::new(heap);
    for line in lines {
        directory.add(*line)?;
    }
    Ok(directory)
}

fn turning(
    heap: Global,
    lines: &[ServiceLine],
    is_open: bool,
) -> Result<TurningDirectory, SetupError> {
    let mut directory = TurningDirectory::new(heap);
    for line in lines {
        directory.add(*line)?;
    }
    directory.mark(is_open);
    Ok(directory)
}

fn run<S: Store + Drop>(
    tally: &mut Tally<'_>,
    heap: Global,
    store: S,
    example: &Example,
) -> Result<(), SetupError> {
    let mut rows = [ControlRow::free(); 3];
    let Ok(controls) = ControlTable::new(&mut rows) else {
        return Err(Refusal::Opening.into());
    };
    let mut host = Host::open(heap, example, store, controls)?;
    match example.services {
        Services::List(lines) => host.play(tally, &mut list(heap, lines)?, example)?,
        Services::Turning(lines) => host.play(tally, &mut turning(heap, lines, true)?, example)?,
        Services::Closed(lines) => host.play(tally, &mut turning(heap, lines, false)?, example)?,
    }
    Ok(())
}

fn run_over_flat(tally: &mut Tally<'_>, heap: Global, example: &Example) -> Result<(), SetupError> {
    tally.begin(example.name, "flat store");
    let mut rows = [ContextRow::free(); 16];
    let Ok(store) = FlatStore::new(&mut rows) else {
        return Err(Refusal::Opening.into());
    };
    run(tally, heap, store, example)
}

fn run_over_grid(tally: &mut Tally<'_>, heap: Global, example: &Example) -> Result<(), SetupError> {
    tally.begin(example.name, "grid store");
    run(tally, heap, GridStore::new(), example)
}

fn run_group(tally: &mut Tally<'_>, heap: Global, group: &Group) -> Result<(), SetupError> {
    for example in group.examples {
        if example.stores != Stores::Grid {
            run_over_flat(tally, heap, example)?;
        }
        if example.stores != Stores::Flat {
            run_over_grid(tally, heap, example)?;
        }
    }
    Ok(())
}

// Runs the groups, and prints the line of each.
pub(crate) fn run_groups(
    tally: &mut Tally<'_>,
    heap: Global,
    groups: &[Group],
) -> anyhow::Result<()> {
    for group in groups {
        if let Err(error) = run_group(tally, heap, group) {
            anyhow::bail!("{}: {error:?}", group.line);
        }
        tally.print(group.line)?;
    }
    Ok(())
}
