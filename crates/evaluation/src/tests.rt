// A product of tables and its trace, in metres over cells and in legs over padded cells.
use super::tray::work_out;
use super::value::value;
use elements::kind::Kind;
use elements::legs::Legs;
use elements::metres::Metres;
use elements::quantity::Quantity;
use padding::layer;
use refusals::refusal::Refusal;
use shapes::declaration::Declaration;
use sheets::checked::CheckedSheet;
use sheets::node::{Node, Statement};
use sheets::verdict::judge;
use std::test::Fail;
use stores::cells::Cells;

fn table(rank: u16, rows: u16, columns: u16) -> Declaration {
    Declaration {
        rank,
        extents: [rows, columns, 0, 0],
    }
}

// A (2 3), B (3 2), C (2 2) and a scalar D.
fn tables() -> [Declaration; 4] {
    [
        table(2, 2, 3),
        table(2, 3, 2),
        table(2, 2, 2),
        table(0, 0, 0),
    ]
}

fn node(kind: u16, a: u16, b: u16, m: u16, n: u16) -> Node {
    Node { kind, a, b, m, n }
}

fn assign(variable: u16, node: u16) -> Statement {
    Statement { variable, node }
}

// C gets the product of A and B, and D its trace.
fn sheet() -> Result<CheckedSheet, Refusal> {
    let nodes = [
        node(1, 1, 0, 0, 0),
        node(1, 2, 0, 0, 0),
        node(2, 1, 2, 0, 0),
        node(8, 3, 0, 2, 3),
        node(8, 4, 0, 1, 2),
    ];
    let mut sheet = CheckedSheet::empty();
    judge(&tables(), &nodes, &[assign(3, 4), assign(4, 5)], &mut sheet)?;
    Ok(sheet)
}

#[test]
fn metres_over_cells(rt: HostRuntime) -> Result<(), Fail> {
    let (z, o) = (Metres::of(0), Metres::of(7));
    let (a, b, c) = (Metres::of(1), Metres::of(2), Metres::of(3));
    let (d, e, f) = (Metres::of(4), Metres::of(5), Metres::of(6));
    let held = [a, b, c, d, e, f, a, z, b, a, z, c, o, o, o, o, o];
    let Ok(cells) = Cells::open(&tables(), Vec::from_slice(rt.alloc(), &held)?) else {
        return Err(Fail::new("not opened"));
    };
    let sheet = sheet()?;
    let mut tray = [o; 5];
    assert_eq!(rt; work_out(&cells, &sheet, 1, &mut tray), Some(4));
    assert_eq!(rt;
        tray,
        [e, Metres::of(11), Metres::of(14), Metres::of(23), o]
    );
    let mut scalar = [o; 2];
    assert_eq!(rt; work_out(&cells, &sheet, 2, &mut scalar), Some(1));
    assert_eq!(rt; scalar, [Metres::of(28), o]);
    assert_eq!(rt; work_out(&cells, &sheet, 3, &mut tray), None);
    assert_eq!(rt; work_out(&cells, &sheet, 1, &mut scalar), None);
    assert_eq!(rt; scalar, [Metres::of(28), o]);
    assert_eq!(rt; value(&cells, &sheet, 4, &[2, 1]), Some(Metres::of(14)));
    assert_eq!(rt; value(&cells, &sheet, 4, &[2, 3]), None);
    assert_eq!(rt; value(&cells, &sheet, 6, &[]), None);
    Ok(())
}

#[test]
fn legs_over_padded_cells(rt: HostRuntime) -> Result<(), Fail> {
    let (z, o) = (Legs::zero(), Legs::of(7));
    let (a, b, c) = (Legs::of(1), Legs::of(2), Legs::of(3));
    let (d, e, f) = (Legs::of(4), Legs::of(5), Legs::of(6));
    let mut held = Vec::from_slice(
        rt.alloc(),
        &[a, b, c, o, d, e, f, o, o, o, o, o, o, o, o, o],
    )?;
    held.extend_from_slice(&[a, z, o, o, b, a, o, o, z, c, o, o, o, o, o, o])?;
    held.extend_from_slice(&[o; 17])?;
    let square = table(2, 4, 4);
    let wide = [square, square, square, table(0, 0, 0)];
    let Ok(cells) = Cells::open(&wide, held) else {
        return Err(Fail::new("not opened"));
    };
    let Ok(padding) = layer::open(&tables(), 4, cells) else {
        return Err(Fail::new("not opened"));
    };
    let sheet = sheet()?;
    let mut tray = [o; 17];
    assert_eq!(rt; work_out(&padding, &sheet, 1, &mut tray), Some(16));
    assert_eq!(rt; tray, [b, c, z, z, e, f, z, z, z, z, z, z, z, z, z, z, o]);
    assert_eq!(rt; value(&padding, &sheet, 4, &[2, 4]), Some(z));
    assert_eq!(rt; value(&padding, &sheet, 4, &[2, 5]), None);
    assert_eq!(rt; value(&padding, &sheet, 5, &[]), Some(b));
    Ok(())
}
