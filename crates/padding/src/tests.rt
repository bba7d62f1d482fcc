// Padding over padding over cells, and what opening refuses.
use super::layer::open;
use elements::metres::Metres;
use refusals::refusal::Refusal;
use shapes::declaration::Declaration;
use std::test::Fail;
use stores::cells::Cells;
use stores::store::Store;

// A table of rank 1.
const fn row(extent: u16) -> Declaration {
    Declaration {
        rank: 1,
        extents: [extent, 0, 0, 0],
    }
}

// Cells of extent 9 that hold 7 everywhere.
fn nine_cells(rt: &HostRuntime) -> Result<Cells<Metres>, Fail> {
    let elements = vec![in rt.alloc(); Metres::of(7); 9]?;
    match Cells::open(&[row(9)], elements) {
        Ok(cells) => Ok(cells),
        Err(_) => Err(Fail::new("not opened")),
    }
}

#[test]
fn layers_stand_on_layers(rt: HostRuntime) -> Result<(), Fail> {
    let Ok(middle) = open(&[row(8)], 3, nine_cells(&rt)?) else {
        return Err(Fail::new("not opened"));
    };
    let Ok(mut top) = open(&[row(5)], 4, middle) else {
        return Err(Fail::new("not opened"));
    };
    assert_eq!(rt; top.extent(1, 1), Ok(5));
    assert_eq!(rt; top.rounded(1, 1), Ok(9));
    for c in 0..9 {
        let held = if c < 5 { Metres::of(7) } else { Metres::of(0) };
        assert_eq!(rt; top.read(1, &[c + 1]), Ok(held));
    }
    assert_eq!(rt;
        top.write(1, &[6], Metres::of(3)),
        Err(Refusal::SpareTakesZero)
    );
    assert_eq!(rt; top.write(1, &[6], Metres::of(0)), Ok(()));
    let mut middle = top.close();
    assert_eq!(rt; middle.write(1, &[6], Metres::of(3)), Ok(()));
    assert_eq!(rt; middle.read(1, &[6]), Ok(Metres::of(3)));
    Ok(())
}

// The refusal of opening a layer over the cells.
fn refused(rt: &HostRuntime, declared: &[Declaration], m: u16) -> Result<Option<Refusal>, Fail> {
    match open(declared, m, nine_cells(rt)?) {
        Ok(_) => Ok(None),
        Err(declined) => Ok(Some(declined.refusal)),
    }
}

#[test]
fn opening_is_refused(rt: HostRuntime) -> Result<(), Fail> {
    assert_eq!(rt; refused(&rt, &[row(9)], 1)?, None);
    assert_eq!(rt; refused(&rt, &[row(9)], 0)?, Some(Refusal::BadVectorLength));
    assert_eq!(rt;
        refused(&rt, &[row(9)], 17)?,
        Some(Refusal::BadVectorLength)
    );
    assert_eq!(rt;
        refused(&rt, &[row(9), row(64)], 5)?,
        Some(Refusal::TooWide(2))
    );
    assert_eq!(rt;
        refused(&rt, &[row(9); 2], 9)?,
        Some(Refusal::OtherCountBelow)
    );
    assert_eq!(rt;
        refused(&rt, &[row(9)], 2)?,
        Some(Refusal::OtherShapeBelow(1))
    );
    Ok(())
}
