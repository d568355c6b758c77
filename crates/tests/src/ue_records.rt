// UE records and configurations at their edges, and a message that is judged from its octets on.
use accounts::*;
use codes::*;
use control::*;
use directories::*;
use grid::*;
use names::*;
use nas::*;
use records::*;
use std::test::Fail;

const SLICE: SliceCode = 0x01_FF_FF_FF;

const SUBSCRIPTION: SubscriptionLine = SubscriptionLine {
    slice: SLICE,
    dnn: 2,
    default_slice: false,
    default_dnn: false,
    allowed: false,
};

const KNOWN: KnownLine = KnownLine {
    session: 15,
    dnn: 1,
    smf: 255,
};

const UE: UeRecord<'static> = UeRecord {
    number: 5,
    high_priority: false,
    awaits_registration: false,
    session_limit: 15,
    subscriptions: &[],
    known: &[],
};

const GOOD: [UeRecord<'static>; 4] = [
    UE,
    UeRecord {
        number: 4_294_967_295,
        session_limit: 1,
        ..UE
    },
    UeRecord {
        subscriptions: &[SUBSCRIPTION; 32],
        ..UE
    },
    UeRecord {
        known: &[KNOWN; 15],
        ..UE
    },
];

// Each is out of bounds in one point. The book has two names.
const BAD: [UeRecord<'static>; 11] = [
    UeRecord { number: 0, ..UE },
    UeRecord {
        session_limit: 0,
        ..UE
    },
    UeRecord {
        session_limit: 16,
        ..UE
    },
    UeRecord {
        subscriptions: &[SUBSCRIPTION; 33],
        ..UE
    },
    UeRecord {
        known: &[KNOWN; 16],
        ..UE
    },
    UeRecord {
        subscriptions: &[
            SUBSCRIPTION,
            SubscriptionLine {
                dnn: 3,
                ..SUBSCRIPTION
            },
        ],
        ..UE
    },
    UeRecord {
        subscriptions: &[SubscriptionLine {
            dnn: 0,
            ..SUBSCRIPTION
        }],
        ..UE
    },
    UeRecord {
        known: &[
            KNOWN,
            KnownLine {
                session: 16,
                ..KNOWN
            },
        ],
        ..UE
    },
    UeRecord {
        known: &[KnownLine {
            session: 0,
            ..KNOWN
        }],
        ..UE
    },
    UeRecord {
        known: &[KnownLine { dnn: 3, ..KNOWN }],
        ..UE
    },
    UeRecord {
        known: &[KnownLine { smf: 0, ..KNOWN }],
        ..UE
    },
];

const CONFIGURATION: Configuration = Configuration {
    default: SliceDnn {
        slice: SLICE,
        dnn: 1,
    },
    emergency: SliceDnn {
        slice: SLICE,
        dnn: 2,
    },
    static_emergency_smf: 9,
};

fn number_of(res: Result<(), Refusal>) -> u8 {
    res.err().map_or(0, u8::from)
}

fn configuration(default: DnnNumber, emergency: DnnNumber) -> Configuration {
    Configuration {
        default: SliceDnn {
            slice: SLICE,
            dnn: default,
        },
        emergency: SliceDnn {
            slice: SLICE,
            dnn: emergency,
        },
        static_emergency_smf: 0,
    }
}

#[test]
fn checks_records(rt: HostRuntime) -> Result<(), Fail> {
    let book = Book::new(rt.alloc(), &[b"\x04loom", b"\x03sos"])?;
    for record in GOOD {
        assert_eq!(rt; number_of(record.check(&book)), 0);
    }
    for record in BAD {
        assert_eq!(rt; number_of(record.check(&book)), 1);
    }
    Ok(())
}

#[test]
fn checks_configurations(rt: HostRuntime) -> Result<(), Fail> {
    let book = Book::new(rt.alloc(), &[b"\x04loom", b"\x03sos"])?;
    let cases = [
        (1, 2, 0),
        (2, 2, 0),
        (0, 2, 16),
        (1, 0, 16),
        (3, 2, 16),
        (1, 3, 16),
    ];
    for (default, emergency, refusal) in cases {
        assert_eq!(rt;
            number_of(configuration(default, emergency).check(&book)),
            refusal
        );
    }
    assert_eq!(rt; CONFIGURATION.emergency_smf(), Some(9));
    assert_eq!(rt; configuration(1, 2).emergency_smf(), None);
    Ok(())
}

// An initial request with a DNN that is in the book, and with one that is not.
#[test]
fn judges_octets(rt: HostRuntime) -> Result<(), Fail> {
    let book = Book::new(rt.alloc(), &[b"\x04loom", b"\x03sos"])?;
    let mut directory = ListDirectory::new(rt.alloc());
    directory.add(ServiceLine {
        slice: SLICE,
        dnn: 2,
        smf: 7,
    })?;
    let mut control_rows = [ControlRow::free(); 1];
    let Ok(controls) = ControlTable::new(&mut control_rows) else {
        return Err(SetupError::from(Refusal::Opening).into());
    };
    let cases: [(&[u8], Option<SmfId>); 3] = [
        (b"\x7E\x00\x67\x01\x00\x01\x2E\x12\x01\x81", None),
        (
            b"\x7E\x00\x67\x01\x00\x01\x2E\x12\x01\x81\x25\x04\x03sos",
            Some(7),
        ),
        (
            b"\x7E\x00\x67\x01\x00\x01\x2E\x12\x01\x81\x25\x04\x03sot",
            None,
        ),
    ];
    for (octets, smf) in cases {
        let uplink = read_uplink(octets)?;
        let inquiry = inquiry(&uplink, UE, CONFIGURATION, &book);
        let verdict = judge(&inquiry, &GridStore::new(), &controls, &mut directory);
        assert_eq!(rt; verdict.decision.smf(), smf);
        let context = verdict.context(inquiry.pdu_session());
        assert_eq!(rt; context.map(|context| context.smf), smf);
    }
    Ok(())
}
