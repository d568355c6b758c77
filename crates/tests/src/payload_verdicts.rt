// Verdicts, rule by rule: messages over some contexts, control lines and a directory, and what becomes
// of each. They are constants, since a test is proved as well, and a table in its body is proved entry
// by entry.
use codes::*;
use control::*;
use directories::*;
use grid::*;
use records::*;
use std::alloc::Global;
use std::process::Abort;
use std::test::Fail;
use stores::*;
use verdicts::*;

const SLICE: SliceCode = 0x01_FF_FF_FF;

const ALLOWED_SLICE: SliceCode = 0x02_00_00_01;

const INITIAL: Option<RequestType> = Some(RequestType::Initial);

const EXISTING: Option<RequestType> = Some(RequestType::Existing);

const INITIAL_EMERGENCY: Option<RequestType> = Some(RequestType::InitialEmergency);

const EXISTING_EMERGENCY: Option<RequestType> = Some(RequestType::ExistingEmergency);

const MODIFICATION: Option<RequestType> = Some(RequestType::Modification);

const NOT_FORWARDED: Decision = Decision::Return(Cause::NotForwarded);

const NOT_SUPPORTED: Decision = Decision::Return(Cause::DnnNotSupported);

const AT_LIMIT: Decision = Decision::Return(Cause::MaximumSessions);

// What is established at the SMF of this ID, for a common session or an emergency one.
const COMMON_7: Decision = Decision::Establish {
    smf: 7,
    emergency: false,
};

const COMMON_8: Decision = Decision::Establish {
    smf: 8,
    emergency: false,
};

const COMMON_31: Decision = Decision::Establish {
    smf: 31,
    emergency: false,
};

const COMMON_32: Decision = Decision::Establish {
    smf: 32,
    emergency: false,
};

const EMERGENCY_8: Decision = Decision::Establish {
    smf: 8,
    emergency: true,
};

const EMERGENCY_9: Decision = Decision::Establish {
    smf: 9,
    emergency: true,
};

const EMERGENCY_32: Decision = Decision::Establish {
    smf: 32,
    emergency: true,
};

const CONFIGURATION: Configuration = Configuration {
    default: SliceDnn {
        slice: SLICE,
        dnn: 1,
    },
    emergency: SliceDnn {
        slice: SLICE,
        dnn: 2,
    },
    static_emergency_smf: 9,
};

// UE 5, which may have three sessions.
const UE: UeRecord<'static> = UeRecord {
    number: 5,
    high_priority: false,
    awaits_registration: false,
    session_limit: 3,
    subscriptions: &[
        SubscriptionLine {
            slice: 3,
            dnn: 4,
            default_slice: false,
            default_dnn: true,
            allowed: false,
        },
        SubscriptionLine {
            slice: SLICE,
            dnn: 1,
            default_slice: true,
            default_dnn: true,
            allowed: false,
        },
        SubscriptionLine {
            slice: ALLOWED_SLICE,
            dnn: 5,
            default_slice: true,
            default_dnn: false,
            allowed: true,
        },
    ],
    known: &[
        KnownLine {
            session: 3,
            dnn: 3,
            smf: 31,
        },
        KnownLine {
            session: 4,
            dnn: 2,
            smf: 32,
        },
        KnownLine {
            session: 4,
            dnn: 3,
            smf: 33,
        },
    ],
};

const AWAITING: UeRecord<'static> = UeRecord {
    awaits_registration: true,
    ..UE
};

const WITHOUT_LINES: UeRecord<'static> = UeRecord {
    subscriptions: &[],
    known: &[],
    ..UE
};

const SESSION_1: Context = Context {
    ue: 5,
    session: 1,
    smf: 21,
    emergency: false,
    slice: SLICE,
    dnn: 1,
};

const SESSION_2: Context = Context {
    session: 2,
    smf: 22,
    slice: ALLOWED_SLICE,
    ..SESSION_1
};

const SESSION_3: Context = Context {
    session: 3,
    smf: 23,
    ..SESSION_1
};

// Emergency sessions.
const SESSION_12: Context = Context {
    session: 12,
    smf: 32,
    emergency: true,
    ..SESSION_1
};

const SESSION_14: Context = Context {
    session: 14,
    smf: 34,
    emergency: true,
    ..SESSION_1
};

// One of another UE.
const OTHERS: Context = Context {
    ue: 6,
    session: 15,
    emergency: true,
    ..SESSION_1
};

// A request type, a session, the DNN that is named, what becomes of the payload, and the SMF at which
// the session is released.
type Row = (
    Option<RequestType>,
    SessionId,
    Option<DnnNumber>,
    Decision,
    Option<SmfId>,
);

#[derive(Clone, Copy)]
struct Trial {
    record: UeRecord<'static>,
    configuration: Configuration,
    contexts: &'static [Context],
    // kind, DNN number and back-off octet, all in the common slice
    controls: &'static [(u8, DnnNumber, u8)],
    is_open: bool,
    rows: &'static [Row],
}

const TRIAL: Trial = Trial {
    record: UE,
    configuration: CONFIGURATION,
    contexts: &[SESSION_1, OTHERS],
    controls: &[],
    is_open: true,
    rows: &[],
};

fn put_all(store: &mut GridStore, contexts: &[Context]) -> bool {
    contexts.iter().all(|context| store.put(*context).is_ok())
}

fn set_all(controls: &mut ControlTable<'_>, lines: &[(u8, DnnNumber, u8)]) -> bool {
    for (kind, dnn, back_off) in lines {
        let numbers = ControlNumbers {
            kind: *kind,
            slice: SLICE,
            dnn: *dnn,
        };
        if controls.set(numbers, *back_off).is_err() {
            return false;
        }
    }
    true
}

// A directory in which SMF 7 serves DNN 1, and SMF 8 DNN 2, in the common slice.
fn directory(heap: Global, is_open: bool) -> Result<TurningDirectory, SetupError> {
    let mut directory = TurningDirectory::new(heap);
    for (dnn, smf) in [(1, 7), (2, 8)] {
        directory.add(ServiceLine {
            slice: SLICE,
            dnn,
            smf,
        })?;
    }
    directory.mark(is_open);
    Ok(directory)
}

fn is_judged<S: Store, D: Directory>(
    trial: &Trial,
    row: &Row,
    store: &S,
    controls: &ControlTable<'_>,
    directory: &mut D,
) -> bool {
    let (request_type, session, dnn, decision, release) = *row;
    let inquiry = Inquiry {
        record: trial.record,
        configuration: trial.configuration,
        session,
        request_type,
        slice: None,
        dnn,
    };
    let verdict = judge(&inquiry, store, controls, directory);
    verdict.decision == decision && verdict.release == release
}

fn are_judged(rt: &impl Abort, heap: Global, trials: &[Trial]) -> Result<(), SetupError> {
    for trial in trials {
        let mut store = GridStore::new();
        assert!(rt; put_all(&mut store, trial.contexts));
        let mut control_rows = [ControlRow::free(); 3];
        let Ok(mut controls) = ControlTable::new(&mut control_rows) else {
            return Err(Refusal::Opening.into());
        };
        assert!(rt; set_all(&mut controls, trial.controls));
        let mut directory = directory(heap, trial.is_open)?;
        for row in trial.rows {
            assert!(rt; is_judged(trial, row, &store, &controls, &mut directory));
        }
    }
    Ok(())
}

const AWAITS_REGISTRATION: [Trial; 3] = [
    Trial {
        record: AWAITING,
        contexts: &[SESSION_1, SESSION_14],
        rows: &[
            (INITIAL, 1, None, NOT_FORWARDED, None),
            (INITIAL, 4, Some(3), NOT_FORWARDED, None),
            (INITIAL, 14, None, NOT_FORWARDED, None),
            (None, 1, None, Decision::Forward(21), None),
            (EXISTING, 4, None, COMMON_32, None),
        ],
        ..TRIAL
    },
    Trial {
        record: AWAITING,
        rows: &[(INITIAL, 4, None, COMMON_7, None)],
        ..TRIAL
    },
    Trial {
        contexts: &[SESSION_14],
        rows: &[(INITIAL, 4, None, COMMON_7, None)],
        ..TRIAL
    },
];

// A UE that awaits a mobility registration makes no initial request beside an emergency session.
#[test]
fn awaits_registration(rt: HostRuntime) -> Result<(), Fail> {
    are_judged(&rt, rt.alloc(), &AWAITS_REGISTRATION)?;
    Ok(())
}

const CONGESTION: [Trial; 2] = [
    Trial {
        controls: &[(3, 0, 0x69), (2, 2, 0x67), (1, 1, 0x22)],
        rows: &[
            (
                INITIAL,
                4,
                None,
                Decision::Return(Cause::Congestion(0x22)),
                None,
            ),
            (
                EXISTING,
                1,
                Some(1),
                Decision::Return(Cause::Congestion(0x22)),
                None,
            ),
            (
                MODIFICATION,
                1,
                Some(2),
                Decision::Return(Cause::SliceAndDnnCongestion(0x67)),
                None,
            ),
            (
                INITIAL,
                1,
                Some(3),
                Decision::Return(Cause::SliceCongestion(0x69)),
                None,
            ),
            (None, 1, Some(1), Decision::Forward(21), None),
            (INITIAL_EMERGENCY, 4, None, EMERGENCY_9, None),
        ],
        ..TRIAL
    },
    Trial {
        record: UeRecord {
            high_priority: true,
            ..UE
        },
        controls: &[(3, 0, 0x69), (2, 2, 0x67), (1, 1, 0x22)],
        rows: &[
            (INITIAL, 4, None, COMMON_7, None),
            (MODIFICATION, 1, Some(2), Decision::Forward(21), None),
        ],
        ..TRIAL
    },
];

// Control lines hold off initial and existing requests and modifications, but not those of a UE of high
// priority.
#[test]
fn congestion(rt: HostRuntime) -> Result<(), Fail> {
    are_judged(&rt, rt.alloc(), &CONGESTION)?;
    Ok(())
}

const SESSION_LIMIT: [Trial; 2] = [
    Trial {
        contexts: &[SESSION_1, SESSION_2, SESSION_3],
        rows: &[
            (INITIAL, 4, None, AT_LIMIT, None),
            (EXISTING, 4, None, AT_LIMIT, None),
            (INITIAL, 5, Some(0), AT_LIMIT, None),
            (INITIAL, 3, None, COMMON_7, Some(23)),
            (MODIFICATION, 4, None, NOT_FORWARDED, None),
            (INITIAL_EMERGENCY, 4, None, EMERGENCY_9, None),
        ],
        ..TRIAL
    },
    Trial {
        contexts: &[SESSION_1, SESSION_2, OTHERS],
        rows: &[(INITIAL, 4, None, COMMON_7, None)],
        ..TRIAL
    },
];

// A UE has no more sessions than it may.
#[test]
fn session_limit(rt: HostRuntime) -> Result<(), Fail> {
    are_judged(&rt, rt.alloc(), &SESSION_LIMIT)?;
    Ok(())
}

const BARRED_SLICE: [Trial; 2] = [
    Trial {
        contexts: &[SESSION_1, SESSION_2, SESSION_14],
        rows: &[
            (EXISTING, 1, None, NOT_FORWARDED, None),
            (EXISTING, 1, Some(5), NOT_FORWARDED, None),
            (EXISTING, 2, None, Decision::Forward(22), None),
            (EXISTING, 14, None, Decision::Forward(34), None),
            (MODIFICATION, 1, None, Decision::Forward(21), None),
        ],
        ..TRIAL
    },
    Trial {
        record: WITHOUT_LINES,
        contexts: &[SESSION_2],
        rows: &[(EXISTING, 2, None, NOT_FORWARDED, None)],
        ..TRIAL
    },
];

// A session is moved here only where an allowed line has its slice, but for an emergency session.
#[test]
fn barred_slice(rt: HostRuntime) -> Result<(), Fail> {
    are_judged(&rt, rt.alloc(), &BARRED_SLICE)?;
    Ok(())
}

const STANDING_CONTEXT: [Trial; 1] = [Trial {
    contexts: &[SESSION_1, SESSION_14],
    rows: &[
        (None, 1, None, Decision::Forward(21), None),
        (MODIFICATION, 1, Some(64), Decision::Forward(21), None),
        (None, 14, None, Decision::Forward(34), None),
        (INITIAL_EMERGENCY, 1, None, NOT_FORWARDED, None),
        (EXISTING_EMERGENCY, 1, None, NOT_FORWARDED, None),
        (INITIAL_EMERGENCY, 14, None, Decision::Forward(34), None),
        (EXISTING_EMERGENCY, 14, None, Decision::Forward(34), None),
    ],
    ..TRIAL
}];

// Where a context stands, all but an initial request goes to its SMF; an emergency request only if it is
// an emergency context.
#[test]
fn standing_context(rt: HostRuntime) -> Result<(), Fail> {
    are_judged(&rt, rt.alloc(), &STANDING_CONTEXT)?;
    Ok(())
}

const INITIAL_REQUEST: [Trial; 2] = [
    Trial {
        rows: &[
            (INITIAL, 2, None, COMMON_7, None),
            (INITIAL, 2, Some(2), COMMON_8, None),
            (INITIAL, 1, None, COMMON_7, Some(21)),
            (INITIAL, 2, Some(0), NOT_SUPPORTED, None),
            (INITIAL, 1, Some(3), NOT_SUPPORTED, Some(21)),
        ],
        ..TRIAL
    },
    Trial {
        is_open: false,
        rows: &[
            (INITIAL, 2, None, NOT_FORWARDED, None),
            (INITIAL, 1, Some(3), NOT_FORWARDED, Some(21)),
        ],
        ..TRIAL
    },
];

// An initial request goes where the directory chooses, and a context that stands is released.
#[test]
fn initial_request(rt: HostRuntime) -> Result<(), Fail> {
    are_judged(&rt, rt.alloc(), &INITIAL_REQUEST)?;
    Ok(())
}

const KNOWN_ELSEWHERE: [Trial; 2] = [
    Trial {
        rows: &[
            (EXISTING, 4, None, COMMON_32, None),
            (EXISTING, 4, Some(3), COMMON_32, None),
            (EXISTING, 5, Some(3), COMMON_31, None),
            (EXISTING, 5, None, NOT_FORWARDED, None),
            (EXISTING, 5, Some(0), NOT_FORWARDED, None),
            (EXISTING_EMERGENCY, 2, None, EMERGENCY_32, None),
            (EXISTING_EMERGENCY, 3, Some(3), EMERGENCY_32, None),
        ],
        ..TRIAL
    },
    Trial {
        record: WITHOUT_LINES,
        rows: &[
            (EXISTING, 4, Some(3), NOT_FORWARDED, None),
            (EXISTING_EMERGENCY, 2, Some(2), NOT_FORWARDED, None),
        ],
        ..TRIAL
    },
];

// A session that is known elsewhere goes to the SMF that has it: by its number or the DNN that is named,
// and in an emergency by the DNN of emergency sessions.
#[test]
fn known_elsewhere(rt: HostRuntime) -> Result<(), Fail> {
    are_judged(&rt, rt.alloc(), &KNOWN_ELSEWHERE)?;
    Ok(())
}

const WITHOUT_STATIC_SMF: Configuration = Configuration {
    static_emergency_smf: 0,
    ..CONFIGURATION
};

const EMERGENCY_REQUEST: [Trial; 5] = [
    Trial {
        rows: &[(INITIAL_EMERGENCY, 2, None, EMERGENCY_9, None)],
        ..TRIAL
    },
    Trial {
        contexts: &[SESSION_14, SESSION_1, SESSION_12],
        rows: &[(INITIAL_EMERGENCY, 2, Some(3), EMERGENCY_32, None)],
        ..TRIAL
    },
    Trial {
        configuration: WITHOUT_STATIC_SMF,
        rows: &[(INITIAL_EMERGENCY, 2, None, EMERGENCY_8, None)],
        ..TRIAL
    },
    Trial {
        configuration: Configuration {
            emergency: SliceDnn {
                slice: SLICE,
                dnn: 3,
            },
            ..WITHOUT_STATIC_SMF
        },
        rows: &[(INITIAL_EMERGENCY, 2, Some(1), NOT_SUPPORTED, None)],
        ..TRIAL
    },
    Trial {
        configuration: WITHOUT_STATIC_SMF,
        is_open: false,
        rows: &[(INITIAL_EMERGENCY, 2, None, NOT_FORWARDED, None)],
        ..TRIAL
    },
];

// An initial emergency request goes to the SMF of another emergency session, else to the static one,
// else where the directory chooses.
#[test]
fn emergency_request(rt: HostRuntime) -> Result<(), Fail> {
    are_judged(&rt, rt.alloc(), &EMERGENCY_REQUEST)?;
    Ok(())
}

const NOTHING_TO_CHANGE: [Trial; 1] = [Trial {
    rows: &[
        (None, 4, None, NOT_FORWARDED, None),
        (None, 4, Some(1), NOT_FORWARDED, None),
        (MODIFICATION, 4, Some(3), NOT_FORWARDED, None),
    ],
    ..TRIAL
}];

// Without a context there is nothing to change.
#[test]
fn nothing_to_change(rt: HostRuntime) -> Result<(), Fail> {
    are_judged(&rt, rt.alloc(), &NOTHING_TO_CHANGE)?;
    Ok(())
}

// A record, a request type, the slice and DNN that are named, whether a context stands, and the slice
// and DNN used.
type Use = (
    UeRecord<'static>,
    Option<RequestType>,
    Option<SliceCode>,
    Option<DnnNumber>,
    bool,
    SliceCode,
    DnnNumber,
);

// A UE whose default slice and DNN are not the core's.
const MOVED: UeRecord<'static> = UeRecord {
    subscriptions: &[
        SubscriptionLine {
            slice: ALLOWED_SLICE,
            dnn: 5,
            default_slice: true,
            default_dnn: true,
            allowed: false,
        },
        SubscriptionLine {
            slice: 3,
            dnn: 4,
            default_slice: true,
            default_dnn: true,
            allowed: false,
        },
    ],
    ..UE
};

const USES: [Use; 11] = [
    (WITHOUT_LINES, INITIAL, None, None, true, SLICE, 1),
    (WITHOUT_LINES, MODIFICATION, None, None, true, 7, 8),
    (WITHOUT_LINES, None, Some(9), None, true, 9, 8),
    (WITHOUT_LINES, None, None, Some(0), true, 7, 0),
    (WITHOUT_LINES, EXISTING, None, None, false, SLICE, 1),
    (UE, INITIAL, None, None, true, SLICE, 1),
    (UE, INITIAL, Some(3), None, false, 3, 4),
    (UE, EXISTING, Some(9), None, false, 9, 1),
    (UE, INITIAL_EMERGENCY, Some(9), Some(9), true, SLICE, 2),
    (MOVED, INITIAL, None, None, true, ALLOWED_SLICE, 5),
    (MOVED, EXISTING, Some(3), None, false, 3, 4),
];

const STANDING: Context = Context {
    slice: 7,
    dnn: 8,
    ..SESSION_1
};

fn is_used(row: &Use) -> bool {
    let (record, request_type, slice, dnn, stands, used_slice, used_dnn) = *row;
    let inquiry = Inquiry {
        record,
        configuration: CONFIGURATION,
        session: 1,
        request_type,
        slice,
        dnn,
    };
    let context = if stands { Some(STANDING) } else { None };
    let used = inquiry.slice_and_dnn(context);
    used.slice == used_slice && used.dnn == used_dnn
}

// Slice and DNN are found each by itself: named, the context's, of the first default line, or the core's.
#[test]
fn slice_and_dnn(rt: HostRuntime) {
    assert!(rt; USES.iter().all(|row| is_used(row)));
}
