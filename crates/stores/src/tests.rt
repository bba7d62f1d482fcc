// What opening cells refuses, and what a write leaves.
use super::cells::Cells;
use super::store::Store;
use elements::metres::Metres;
use refusals::refusal::Refusal;
use shapes::declaration::Declaration;
use std::test::Fail;

const SQUARE: Declaration = Declaration {
    rank: 2,
    extents: [64, 64, 0, 0],
};

const LONG: Declaration = Declaration {
    rank: 1,
    extents: [65, 0, 0, 0],
};

const CUBE: Declaration = Declaration {
    rank: 3,
    extents: [17, 17, 17, 0],
};

const UNTIDY: Declaration = Declaration {
    rank: 1,
    extents: [2, 1, 0, 0],
};

const TABLE: Declaration = Declaration {
    rank: 2,
    extents: [2, 3, 0, 0],
};

// The refusal of opening cells over no element at all.
fn refused(rt: &HostRuntime, declared: &[Declaration]) -> Option<Refusal> {
    match Cells::open(declared, Vec::new(rt.alloc())) {
        Ok(cells) => {
            let _ = cells.close().push(Metres::of(0));
            None
        }
        Err(declined) => Some(declined.refusal),
    }
}

#[test]
fn declarations_are_judged(rt: HostRuntime) {
    assert_eq!(rt; refused(&rt, &[]), None);
    assert_eq!(rt; refused(&rt, &[SQUARE]), Some(Refusal::TooFewElements));
    assert_eq!(rt;
        refused(&rt, &[SQUARE, LONG]),
        Some(Refusal::BadDeclaration(2))
    );
    assert_eq!(rt; refused(&rt, &[CUBE]), Some(Refusal::BadDeclaration(1)));
    assert_eq!(rt; refused(&rt, &[UNTIDY]), Some(Refusal::BadDeclaration(1)));
    assert_eq!(rt;
        refused(&rt, &[SQUARE; 17]),
        Some(Refusal::TooManyDeclarations)
    );
}

#[test]
fn a_write_sets_one_place(rt: HostRuntime) -> Result<(), Fail> {
    let elements = vec![in rt.alloc(); Metres::of(0); 7]?;
    let Ok(mut cells) = Cells::open(&[TABLE], elements) else {
        return Err(Fail::new("not opened"));
    };
    assert_eq!(rt; cells.write(1, &[2, 1], Metres::of(5)), Ok(()));
    assert_eq!(rt; cells.read(1, &[2, 1]), Ok(Metres::of(5)));
    assert_eq!(rt; cells.read(1, &[1, 2]), Ok(Metres::of(0)));
    assert_eq!(rt; cells.read(1, &[1, 4]), Err(Refusal::OutOfReach));
    assert_eq!(rt;
        cells.write(2, &[], Metres::of(5)),
        Err(Refusal::NoSuchVariable)
    );
    Ok(())
}
