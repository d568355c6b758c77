// The calls of a router over either store, each as a host makes it: a payload that its SMF does not
// take, one that it takes, and one that goes back at once.
use codes::*;
use control::*;
use directories::*;
use flat::*;
use grid::*;
use names::Book;
use records::*;
use router::*;
use std::alloc::Global;
use std::process::Abort;
use std::test::Fail;
use stores::*;
use verdicts::Decision;

const COMMON: SliceDnn = SliceDnn {
    slice: 0x01_FF_FF_FF,
    dnn: 1,
};

const EMERGENCY: SliceDnn = SliceDnn { dnn: 2, ..COMMON };

const CONFIGURATION: Configuration = Configuration {
    default: COMMON,
    emergency: EMERGENCY,
    static_emergency_smf: 9,
};

const UE: UeRecord<'static> = UeRecord {
    number: 5,
    high_priority: false,
    awaits_registration: false,
    session_limit: 15,
    subscriptions: &[],
    known: &[],
};

const SESSION: PduSession = PduSession { ue: 5, id: 1 };

const MESSAGE: &[u8] = b"\x7E\x00\x67\x01\x00\x04\x2E\x01\x01\xC1\x12\x01\x81";

// The same without its request type.
const BARE_MESSAGE: &[u8] = b"\x7E\x00\x67\x01\x00\x04\x2E\x01\x01\xC1\x12\x01";

const PAYLOAD: &[u8] = b"\x2E\x01\x01\xC1";

const RETURN: &[u8] = b"\x7E\x00\x68\x01\x00\x04\x2E\x01\x01\xC1\x12\x01\x58\x5A";

// What a host has besides the router.
#[derive(Drop)]
struct Host<'a> {
    controls: ControlTable<'a>,
    directory: ListDirectory,
    pool: Vec<u8>,
    output: [u8; 32],
}

fn receive<S: Store>(
    router: &mut Router<S>,
    host: &mut Host<'_>,
    message: &[u8],
) -> Result<Answer, Refusal> {
    router.receive(
        UE,
        &host.controls,
        &mut host.directory,
        &mut host.pool,
        &mut host.output,
        message,
    )
}

// The ticket of the message, which goes to SMF 7 under this number.
fn forward<S: Store>(
    rt: &impl Abort,
    router: &mut Router<S>,
    host: &mut Host<'_>,
    wanted: u32,
) -> Ticket {
    let Ok(answer) = receive(router, host, MESSAGE) else {
        panic!(rt; "refused")
    };
    let Answer {
        number,
        old_session: _,
        request_type,
        verdict,
        delivery,
    } = answer;
    assert_eq!(rt; number, wanted);
    assert!(rt; request_type == Some(RequestType::Initial));
    assert!(rt;
        verdict.decision
            == Decision::Establish {
                smf: 7,
                emergency: false
            }
    );
    match delivery {
        Delivery::Forwarded(ticket) => ticket,
        Delivery::Returned { length: _ } => panic!(rt; "returned"),
    }
}

// The same ticket, once it was parked.
fn repick<S: Store>(rt: &impl Abort, router: &mut Router<S>, ticket: Ticket) -> Ticket {
    let number = match router.park(ticket) {
        Ok(number) => number,
        Err(_back) => panic!(rt; "not parked"),
    };
    match router.pick(number) {
        Ok(ticket) => ticket,
        Err(_) => panic!(rt; "not picked"),
    }
}

fn fail<S: Store>(rt: &impl Abort, router: &mut Router<S>, host: &mut Host<'_>, ticket: Ticket) {
    match router.failed(&host.pool, &mut host.output, ticket) {
        Ok(length) => assert!(rt; host.output.get(..length) == Some(RETURN)),
        Err(_back) => panic!(rt; "not failed"),
    }
}

fn take<S: Store>(rt: &impl Abort, router: &mut Router<S>, ticket: Ticket) {
    match router.taken(ticket) {
        Ok(()) => {}
        Err(_back) => panic!(rt; "not taken"),
    }
}

// The session has no context, so the message that requests nothing goes back.
fn go_back<S: Store>(rt: &impl Abort, router: &mut Router<S>, host: &mut Host<'_>) {
    let Ok(answer) = receive(router, host, BARE_MESSAGE) else {
        panic!(rt; "refused")
    };
    let Answer {
        number,
        old_session: _,
        request_type,
        verdict: _,
        delivery,
    } = answer;
    assert_eq!(rt; number, 3);
    assert!(rt; request_type.is_none());
    match delivery {
        Delivery::Forwarded(_ticket) => panic!(rt; "forwarded"),
        Delivery::Returned { length } => {
            assert!(rt; host.output.get(..length) == Some(RETURN));
        }
    }
}

fn run<S: Store>(rt: &impl Abort, router: &mut Router<S>, host: &mut Host<'_>) {
    let ticket = forward(rt, router, host, 1);
    assert_eq!(rt; ticket.number(), 1);
    assert!(rt; router.payload(&host.pool, &ticket) == Ok(PAYLOAD));
    assert!(rt;
        router
            .context(SESSION)
            .is_some_and(|context| context.smf == 7)
    );
    let ticket = repick(rt, router, ticket);
    fail(rt, router, host, ticket);
    assert!(rt; router.context(SESSION).is_none());
    let ticket = forward(rt, router, host, 2);
    take(rt, router, ticket);
    assert!(rt; router.released(SESSION) == Ok(()));
    assert!(rt; router.released(SESSION) == Err(Refusal::NoContext));
    go_back(rt, router, host);
}

// A run from an empty store, which is empty again in the end.
fn open_and_run<S: Store + Drop>(
    rt: &impl Abort,
    heap: Global,
    store: S,
) -> Result<(), SetupError> {
    let book = Book::new(heap, &[b"\x04loom", b"\x03sos"])?;
    let mut lines = [ControlRow::free(); 1];
    let Ok(controls) = ControlTable::new(&mut lines) else {
        return Err(Refusal::Opening.into());
    };
    let mut host = Host {
        controls,
        directory: ListDirectory::new(heap),
        pool: vec![in heap; 0; POOL_LENGTH]?,
        output: [0; 32],
    };
    host.directory.add(ServiceLine {
        slice: COMMON.slice,
        dnn: COMMON.dnn,
        smf: 7,
    })?;
    let mut router = Router::open(heap, &book, CONFIGURATION, 1, store)?;
    run(rt, &mut router, &mut host);
    assert!(rt; router.into_store().is_empty());
    Ok(())
}

#[test]
fn over_flat_rows(rt: HostRuntime) -> Result<(), Fail> {
    let mut rows = [ContextRow::free(); 16];
    let Ok(store) = FlatStore::new(&mut rows) else {
        assert!(rt; false);
        return Ok(());
    };
    open_and_run(&rt, rt.alloc(), store)?;
    Ok(())
}

#[test]
fn over_grid(rt: HostRuntime) -> Result<(), Fail> {
    open_and_run(&rt, rt.alloc(), GridStore::new())?;
    Ok(())
}
