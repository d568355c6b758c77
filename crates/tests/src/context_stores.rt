// Stores at their edges. What holds of any store is tried at both makes.
use codes::*;
use flat::*;
use grid::*;
use std::process::Abort;
use std::test::Fail;
use stores::*;
use tables::find_row;

// A call, and what it has to answer. Sessions from 10 on are put as emergency sessions.
#[derive(Clone, Copy)]
enum Step {
    Put(UeNumber, SessionId, bool),
    PutBounds(SmfId, DnnNumber, bool),
    Remove(UeNumber, SessionId, bool),
    Room(UeNumber, SessionId, bool),
    Find(UeNumber, SessionId, bool),
    Others(UeNumber, SessionId, usize),
    LowestEmergency(UeNumber, SessionId, Option<SessionId>),
    Empty(bool),
}

fn context(ue: UeNumber, session: SessionId, smf: SmfId, dnn: DnnNumber) -> Context {
    Context {
        ue,
        session,
        smf,
        emergency: session >= 10,
        slice: 0x01_FF_FF_FF,
        dnn,
    }
}

fn answers_right<S: Store>(store: &mut S, step: &Step) -> bool {
    match *step {
        Step::Put(ue, id, done) => store.put(context(ue, id, 7, 1)).is_ok() == done,
        Step::PutBounds(smf, dnn, done) => store.put(context(1, 1, smf, dnn)).is_ok() == done,
        Step::Remove(ue, id, stood) => store.remove(PduSession { ue, id }) == stood,
        Step::Room(ue, id, room) => store.has_room(PduSession { ue, id }) == room,
        Step::Find(ue, id, found) => store.find(PduSession { ue, id }).is_some() == found,
        Step::Others(ue, id, count) => store.count_others(PduSession { ue, id }) == count,
        Step::LowestEmergency(ue, id, lowest) => {
            store.lowest_other_emergency(PduSession { ue, id }) == lowest
        }
        Step::Empty(empty) => store.is_empty() == empty,
    }
}

fn replay<S: Store>(rt: &impl Abort, store: &mut S, steps: &[Step]) {
    for step in steps {
        assert!(rt; answers_right(store, step));
    }
}

fn any_store<S: Store>(rt: &impl Abort, store: &mut S) {
    let steps = [
        Step::Empty(true),
        Step::Room(0, 1, false),
        Step::Room(1, 0, false),
        Step::Room(1, 16, false),
        Step::Room(1, 1, true),
        Step::Room(4_294_967_295, 15, true),
        Step::Put(0, 1, false),
        Step::Put(1, 0, false),
        Step::Put(1, 16, false),
        Step::PutBounds(0, 64, false),
        Step::PutBounds(1, 65, false),
        Step::Find(0, 1, false),
        Step::Find(1, 16, false),
        Step::Remove(1, 16, false),
        Step::Empty(true),
        Step::PutBounds(255, 64, true),
        Step::Put(5, 12, true),
        Step::Put(5, 3, true),
        Step::Put(5, 11, true),
        Step::Put(5, 11, true),
        Step::Others(5, 3, 2),
        Step::Others(5, 4, 3),
        Step::Others(7, 1, 0),
        Step::LowestEmergency(5, 3, Some(11)),
        Step::LowestEmergency(5, 11, Some(12)),
        Step::LowestEmergency(1, 1, None),
        Step::Remove(5, 11, true),
        Step::Remove(5, 11, false),
        Step::Find(5, 11, false),
        Step::Find(5, 12, true),
        Step::Empty(false),
        Step::Room(6, 1, true),
        Step::Put(6, 1, true),
        Step::Find(6, 1, true),
        Step::Remove(6, 1, true),
        Step::Find(6, 1, false),
    ];
    replay(rt, store, &steps);
}

fn row_count_refusal(rows: &mut [ContextRow]) -> u8 {
    match FlatStore::new(rows) {
        Ok(_) => 0,
        Err(handed_back) => u8::from(handed_back.refusal),
    }
}

#[test]
fn no_room_refusal(rt: HostRuntime) {
    assert_eq!(rt; u8::from(Refusal::from(NoRoom)), 14);
}

#[test]
fn flat_rows(rt: HostRuntime) {
    assert_eq!(rt; row_count_refusal(&mut [ContextRow::free(); 15]), 16);
    assert_eq!(rt; row_count_refusal(&mut [ContextRow::free(); 16]), 0);
    assert_eq!(rt; row_count_refusal(&mut [ContextRow::free(); 256]), 0);
    assert_eq!(rt; row_count_refusal(&mut [ContextRow::free(); 257]), 16);
    assert!(rt; FlatStore::check_rows(15).is_err());
    assert!(rt; FlatStore::check_rows(16).is_ok());
    assert!(rt; FlatStore::check_rows(256).is_ok());
    assert!(rt; FlatStore::check_rows(257).is_err());
}

// What is refused leaves the rows as they were.
#[test]
fn refused_flat_rows(rt: HostRuntime) -> Result<(), Fail> {
    let mut rows = [ContextRow::free(); 16];
    let Ok(mut store) = FlatStore::new(&mut rows) else {
        assert!(rt; false);
        return Ok(());
    };
    assert!(rt; store.put(context(5, 1, 7, 1)).is_ok());
    assert_eq!(rt; row_count_refusal(&mut rows[..15]), 16);
    assert_eq!(rt; find_row(&rows, &PduSession { ue: 5, id: 1 }), Some(0));
    Ok(())
}

#[test]
fn flat_store(rt: HostRuntime) -> Result<(), Fail> {
    let mut rows = [ContextRow::free(); 16];
    let Ok(mut store) = FlatStore::new(&mut rows) else {
        assert!(rt; false);
        return Ok(());
    };
    assert_eq!(rt; store.floor(), 16);
    any_store(&rt, &mut store);
    Ok(())
}

#[test]
fn full_flat_store(rt: HostRuntime) -> Result<(), Fail> {
    let mut rows = [ContextRow::free(); 16];
    let Ok(mut store) = FlatStore::new(&mut rows) else {
        assert!(rt; false);
        return Ok(());
    };
    for ue in 1..17 {
        assert!(rt; store.put(context(ue, 1, 7, 1)).is_ok());
    }
    let steps = [
        Step::Room(17, 1, false),
        Step::Put(17, 1, false),
        Step::Room(16, 1, true),
        Step::Put(16, 1, true),
        Step::Remove(3, 1, true),
        Step::Find(3, 1, false),
        Step::Put(17, 1, true),
        Step::Find(17, 1, true),
    ];
    replay(&rt, &mut store, &steps);
    Ok(())
}

#[test]
fn grid_store(rt: HostRuntime) {
    let mut store = GridStore::new();
    assert_eq!(rt; store.floor(), 32);
    any_store(&rt, &mut store);
}

#[test]
fn full_grid_store(rt: HostRuntime) {
    let mut store = GridStore::new();
    for ue in 1..33 {
        assert!(rt; store.put(context(ue, 1, 7, 1)).is_ok());
    }
    let steps = [
        Step::Room(33, 1, false),
        Step::Put(33, 1, false),
        Step::Room(32, 15, true),
        Step::Put(5, 2, true),
        Step::Remove(5, 1, true),
        Step::Room(33, 1, false),
        Step::Remove(5, 2, true),
        Step::Put(33, 3, true),
        Step::Room(5, 1, false),
        Step::Find(5, 3, false),
        Step::Find(33, 3, true),
    ];
    replay(&rt, &mut store, &steps);
}
