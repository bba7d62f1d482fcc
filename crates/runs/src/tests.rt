// Lists of calls to a run over cells and to one over padding, and what both reply.
use super::agreement::agree;
use super::list::{Call, Entry, Outcome, Reply};
use elements::kind::Kind;
use elements::metres::Metres;
use elements::quantity::Quantity;
use indices::index::Index;
use padding::layer;
use shapes::declaration::Declaration;
use sheets::checked::CheckedSheet;
use sheets::node::{Node, Statement};
use sheets::verdict::judge;
use std::process::Abort;
use std::test::Fail;
use stores::cells::Cells;

fn square(side: u16) -> Declaration {
    Declaration {
        rank: 2,
        extents: [side, side, 0, 0],
    }
}

// A table (2 2) that gets itself with its dimensions exchanged.
fn turning() -> Result<CheckedSheet, Fail> {
    let mut sheet = CheckedSheet::empty();
    let nodes = [
        Node {
            kind: 1,
            a: 1,
            b: 0,
            m: 0,
            n: 0,
        },
        Node {
            kind: 7,
            a: 1,
            b: 0,
            m: 1,
            n: 2,
        },
    ];
    let statement = Statement {
        variable: 1,
        node: 2,
    };
    match judge(&[square(2)], &nodes, &[statement], &mut sheet) {
        Ok(()) => Ok(sheet),
        Err(_) => Err(Fail::new("not judged")),
    }
}

// Passes the calls to a run over cells, and to one over padding with vector length 4; all elements are 7 at first.
fn pass(rt: &HostRuntime, entries: &mut [Entry<Metres>]) -> Result<(), Fail> {
    let sheet = turning()?;
    let Ok(cells) = Cells::open(&[square(2)], vec![in rt.alloc(); Metres::of(7); 4]?) else {
        return Err(Fail::new("no cells"));
    };
    let Ok(wide) = Cells::open(&[square(4)], vec![in rt.alloc(); Metres::of(7); 16]?) else {
        return Err(Fail::new("no wide cells"));
    };
    let Ok(padding) = layer::open(&[square(2)], 4, wide) else {
        return Err(Fail::new("no padding"));
    };
    let mut tray = vec![in rt.alloc(); Metres::of(0); 4096]?;
    match agree(&sheet, cells, padding, entries, tray.as_mut_slice()) {
        Ok(_) => Ok(()),
        Err(_) => Err(Fail::new("no runs")),
    }
}

fn entry(call: Call<Metres>) -> Entry<Metres> {
    Entry {
        call,
        left: Ok(Outcome::Done),
        right: Ok(Outcome::Done),
    }
}

fn put(row: u16, column: u16, value: i64) -> Result<Entry<Metres>, Fail> {
    match Index::try_from([row, column].as_slice()) {
        Ok(index) => Ok(entry(Call::Put {
            variable: 1,
            index,
            element: Metres::of(value),
        })),
        Err(_) => Err(Fail::new("no index")),
    }
}

fn fetch(row: u16, column: u16) -> Result<Entry<Metres>, Fail> {
    match Index::try_from([row, column].as_slice()) {
        Ok(index) => Ok(entry(Call::Fetch { variable: 1, index })),
        Err(_) => Err(Fail::new("no index")),
    }
}

fn step(size: usize) -> Entry<Metres> {
    entry(Call::Step { size })
}

fn element(reply: Reply<Metres>) -> Result<Metres, Fail> {
    match reply {
        Ok(Outcome::Element(x)) => Ok(x),
        _ => Err(Fail::new("no element")),
    }
}

// Both runs replied with so many metres.
fn check_element(rt: &impl Abort, entry: Entry<Metres>, value: i64) -> Result<(), Fail> {
    assert_eq!(rt; element(entry.left)?, Metres::of(value));
    assert_eq!(rt; element(entry.right)?, Metres::of(value));
    Ok(())
}

// Both runs did this statement.
fn check_done(rt: &impl Abort, entry: Entry<Metres>, n: usize) -> Result<(), Fail> {
    match (entry.left, entry.right) {
        (Ok(Outcome::Statement(x)), Ok(Outcome::Statement(y))) => {
            assert_eq!(rt; (x, y), (n, n));
            Ok(())
        },
        _ => Err(Fail::new("no statement")),
    }
}

// Both runs refused with this number.
fn check_refused(rt: &impl Abort, entry: Entry<Metres>, number: u8) -> Result<(), Fail> {
    match (entry.left, entry.right) {
        (Err(x), Err(y)) => {
            assert_eq!(rt; (x.number(), y.number()), (number, number));
            Ok(())
        }
        _ => Err(Fail::new("not refused")),
    }
}

#[test]
fn a_table_is_turned_in_place(rt: HostRuntime) -> Result<(), Fail> {
    let mut entries = [
        put(1, 1, 1)?,
        put(1, 2, 2)?,
        put(2, 1, 3)?,
        put(2, 2, 4)?,
        step(4096),
        fetch(1, 1)?,
        fetch(1, 2)?,
        fetch(2, 1)?,
        fetch(2, 2)?,
    ];
    pass(&rt, &mut entries)?;
    check_element(&rt, entries[5], 1)?;
    check_element(&rt, entries[6], 3)?;
    check_element(&rt, entries[7], 2)?;
    check_element(&rt, entries[8], 4)
}

#[test]
fn statements_run_out_until_rewound(rt: HostRuntime) -> Result<(), Fail> {
    let mut entries = [step(4096), step(4096), entry(Call::Rewind), step(4096)];
    pass(&rt, &mut entries)?;
    check_done(&rt, entries[0], 1)?;
    check_refused(&rt, entries[1], 22)?;
    check_done(&rt, entries[3], 1)
}

#[test]
fn padded_places_and_short_trays_are_refused(rt: HostRuntime) -> Result<(), Fail> {
    let mut entries = [fetch(3, 1)?, put(3, 1, 0)?, step(4095)];
    pass(&rt, &mut entries)?;
    check_refused(&rt, entries[0], 20)?;
    check_refused(&rt, entries[1], 20)?;
    check_refused(&rt, entries[2], 21)
}
