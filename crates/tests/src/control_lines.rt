// Control lines at their edges, and the rows that they stand in.
use codes::*;
use control::*;
use std::test::Fail;
use tables::*;

const SLICE: SliceCode = 0x01_FF_FF_FF;

// 0 where the call was carried out, else the refusal's number.
fn number_of(res: Result<(), Refusal>) -> u8 {
    res.err().map_or(0, u8::from)
}

fn make_table(rows: &mut [ControlRow]) -> Result<(), Refusal> {
    ControlTable::new(rows)?;
    Ok(())
}

fn row_count_refusal(rows: &mut [ControlRow]) -> u8 {
    number_of(make_table(rows))
}

#[test]
fn counts_rows(rt: HostRuntime) {
    assert_eq!(rt; row_count_refusal(&mut []), 16);
    assert_eq!(rt; row_count_refusal(&mut [ControlRow::free(); 1]), 0);
    assert_eq!(rt; row_count_refusal(&mut [ControlRow::free(); 64]), 0);
    assert_eq!(rt; row_count_refusal(&mut [ControlRow::free(); 65]), 16);
    assert_eq!(rt; number_of(ControlTable::check_rows(0)), 16);
    assert_eq!(rt; number_of(ControlTable::check_rows(64)), 0);
    assert_eq!(rt; number_of(ControlTable::check_rows(65)), 16);
}

#[test]
fn sets_and_clears_lines(rt: HostRuntime) -> Result<(), Fail> {
    let mut rows = [ControlRow::free(); 2];
    let Ok(mut table) = ControlTable::new(&mut rows) else {
        assert!(rt; false);
        return Ok(());
    };
    // kind 1 does not name the slice, nor kind 3 the DNN: another one is the same key
    let lines = [
        (0, SLICE, 1, 0x20, 19),
        (4, SLICE, 1, 0x20, 19),
        (1, SLICE, 1, 0x21, 0),
        (1, 0, 1, 0x22, 0),
        (3, SLICE, 7, 0x23, 0),
        (2, SLICE, 1, 0x24, 20),
        (3, SLICE, 8, 0x25, 0),
    ];
    for (kind, slice, dnn, back_off, refusal) in lines {
        let numbers = ControlNumbers { kind, slice, dnn };
        assert_eq!(rt; number_of(table.set(numbers, back_off)), refusal);
    }
    assert_eq!(rt; table.back_off(ControlKey::Dnn(1)), Some(0x22));
    assert_eq!(rt; table.back_off(ControlKey::Slice(SLICE)), Some(0x25));
    assert_eq!(rt; table.back_off(ControlKey::SliceAndDnn(SLICE, 1)), None);
    for (kind, refusal) in [(0, 19), (4, 19), (2, 19), (1, 0), (1, 19)] {
        let numbers = ControlNumbers {
            kind,
            slice: SLICE,
            dnn: 1,
        };
        assert_eq!(rt; number_of(table.clear(numbers)), refusal);
    }
    assert_eq!(rt; table.back_off(ControlKey::Dnn(1)), None);
    Ok(())
}

#[test]
fn has_64_lines(rt: HostRuntime) -> Result<(), Fail> {
    let mut rows = [ControlRow::free(); 64];
    let Ok(mut table) = ControlTable::new(&mut rows) else {
        assert!(rt; false);
        return Ok(());
    };
    // a 65th line is refused, another octet for one that stands is not
    for (first, behind, refusal) in [(0, 64, 0), (64, 65, 20), (63, 64, 0)] {
        for dnn in first..behind {
            let numbers = ControlNumbers {
                kind: 1,
                slice: SLICE,
                dnn,
            };
            assert_eq!(rt; number_of(table.set(numbers, 0x20)), refusal);
        }
    }
    Ok(())
}

#[test]
fn finds_places_for_lines(rt: HostRuntime) -> Result<(), Fail> {
    let mut rows = [ControlRow::free(); 2];
    let numbers = ControlNumbers {
        kind: 1,
        slice: SLICE,
        dnn: 1,
    };
    assert_eq!(rt; find_target(&rows, &ControlKey::Dnn(1)), Some(0));
    let Ok(mut table) = ControlTable::new(&mut rows) else {
        assert!(rt; false);
        return Ok(());
    };
    assert_eq!(rt; number_of(table.set(numbers, 0x20)), 0);
    assert_eq!(rt; find_target(&rows, &ControlKey::Dnn(1)), Some(0));
    assert_eq!(rt; find_target(&rows, &ControlKey::Dnn(2)), Some(1));
    assert_eq!(rt; find_target(&rows[..1], &ControlKey::Dnn(2)), None);
    Ok(())
}

// What is refused leaves the rows as they were.
#[test]
fn refused_control_rows(rt: HostRuntime) -> Result<(), Fail> {
    let mut rows = [ControlRow::free(); 65];
    let Ok(mut table) = ControlTable::new(&mut rows[..1]) else {
        assert!(rt; false);
        return Ok(());
    };
    let numbers = ControlNumbers {
        kind: 1,
        slice: SLICE,
        dnn: 1,
    };
    assert_eq!(rt; number_of(table.set(numbers, 0x20)), 0);
    assert_eq!(rt; row_count_refusal(&mut rows), 16);
    assert_eq!(rt; find_row(&rows, &ControlKey::Dnn(1)), Some(0));
    Ok(())
}

#[test]
fn has_no_place_without_rows(rt: HostRuntime) {
    assert_eq!(rt; Table::new(&mut []).set(ControlRow::free()), Err(TableFull));
}
