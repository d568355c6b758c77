// Directories at their edges: what is refused, and who is chosen when.
use codes::*;
use directories::*;
use std::process::Abort;
use std::test::Fail;

const SLICE: SliceCode = 0x01_00_00_01;

fn line(dnn: DnnNumber, smf: SmfId) -> ServiceLine {
    ServiceLine {
        slice: SLICE,
        dnn,
        smf,
    }
}

// The slice with a DNN.
fn wanted(dnn: DnnNumber) -> SliceDnn {
    SliceDnn { slice: SLICE, dnn }
}

// The refusal's number; none where the line was added.
fn number_of(added: Result<(), SetupError>) -> Option<u8> {
    match added {
        Err(SetupError::Refused(refusal)) => Some(u8::from(refusal)),
        _ => None,
    }
}

// A DNN number, and the SMF that has to be chosen for it, of an open directory; none where none serves
// it.
fn choices<D: Directory>(
    rt: &impl Abort,
    directory: &mut D,
    expected: &[(DnnNumber, Option<SmfId>)],
) {
    for (dnn, smf) in expected {
        assert!(rt; directory.choose(wanted(*dnn)) == smf.ok_or(NoSmf::NoneServes));
    }
}

// Lines at the edges, and the refusal that each gets.
const EDGES: [(DnnNumber, SmfId, Option<u8>); 5] = [
    (0, 1, Some(16)),
    (65, 1, Some(16)),
    (1, 0, Some(16)),
    (1, 1, None),
    (64, 255, None),
];

#[test]
fn list_edges(rt: HostRuntime) {
    let mut list = ListDirectory::new(rt.alloc());
    choices(&rt, &mut list, &[(1, None), (0, None)]);
    for (dnn, smf, refusal) in EDGES {
        assert!(rt; number_of(list.add(line(dnn, smf))) == refusal);
    }
    choices(
        &rt,
        &mut list,
        &[(0, None), (65, None), (64, Some(255)), (1, Some(1))],
    );
}

#[test]
fn list_takes_the_first(rt: HostRuntime) -> Result<(), Fail> {
    let mut list = ListDirectory::new(rt.alloc());
    for (dnn, smf) in [(2, 5), (1, 9), (1, 3), (1, 9)] {
        list.add(line(dnn, smf))?;
    }
    choices(
        &rt,
        &mut list,
        &[(1, Some(9)), (1, Some(9)), (2, Some(5)), (3, None)],
    );
    Ok(())
}

#[test]
fn list_has_64_lines(rt: HostRuntime) {
    let mut list = ListDirectory::new(rt.alloc());
    for dnn in 1..65 {
        assert!(rt; number_of(list.add(line(dnn, 200))) == None);
    }
    assert!(rt; number_of(list.add(line(1, 1))) == Some(16));
}

#[test]
fn turning_edges(rt: HostRuntime) {
    let mut turning = TurningDirectory::new(rt.alloc());
    choices(&rt, &mut turning, &[(1, None), (0, None)]);
    for (dnn, smf, refusal) in EDGES {
        assert!(rt; number_of(turning.add(line(dnn, smf))) == refusal);
    }
    choices(
        &rt,
        &mut turning,
        &[(0, None), (65, None), (64, Some(255)), (1, Some(1))],
    );
}

#[test]
fn turning_goes_round(rt: HostRuntime) -> Result<(), Fail> {
    let mut turning = TurningDirectory::new(rt.alloc());
    for (dnn, smf) in [(1, 200), (1, 3), (1, 255), (2, 7)] {
        turning.add(line(dnn, smf))?;
    }
    let round = [
        (1, Some(3)),
        (1, Some(200)),
        (1, Some(255)),
        (1, Some(3)),
        (2, Some(7)),
        (2, Some(7)),
        (1, Some(200)),
        (1, Some(255)),
        (1, Some(3)),
    ];
    choices(&rt, &mut turning, &round);
    turning.mark(false);
    assert!(rt; turning.choose(wanted(1)) == Err(NoSmf::Closed));
    turning.mark(true);
    choices(&rt, &mut turning, &[(1, Some(200))]);
    Ok(())
}

#[test]
fn turning_has_64_pairs(rt: HostRuntime) {
    let mut turning = TurningDirectory::new(rt.alloc());
    for smf in 1..65 {
        assert!(rt; number_of(turning.add(line(1, smf))) == None);
    }
    // a 65th pair is refused, another DNN of a pair that it has is not
    assert!(rt; number_of(turning.add(line(1, 65))) == Some(16));
    assert!(rt; number_of(turning.add(line(2, 64))) == None);
    choices(&rt, &mut turning, &[(2, Some(64)), (1, Some(1))]);
}
