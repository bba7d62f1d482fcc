// The sheet that says C := A B, and the calls that put the factors, work it out and fetch C.
ghost use Rattle.std.specs.Prelude.{◌≡◌, [], ◌∷◌};
ghost use Rattle.indices.specs.Coordinates.{coordinates};

use elements::metres::Metres;
use indices::index::Index;
use refusals::refusal::Refusal;
use runs::list::{Call, Entry, Outcome};
use samples::tables::TABLES;
use sheets::checked::CheckedSheet;
use sheets::node::{Node, Statement};
use sheets::verdict::judge;

// A, B, their outer product, and that contracted over the columns of A and the rows of B.
const NODES: [Node; 4] = [
    Node {
        kind: 1,
        a: 1,
        b: 0,
        m: 0,
        n: 0,
    },
    Node {
        kind: 1,
        a: 2,
        b: 0,
        m: 0,
        n: 0,
    },
    Node {
        kind: 2,
        a: 1,
        b: 2,
        m: 0,
        n: 0,
    },
    Node {
        kind: 8,
        a: 3,
        b: 0,
        m: 2,
        n: 3,
    },
];

const STATEMENTS: [Statement; 1] = [Statement {
    variable: 3,
    node: 4,
}];

pub(super) fn sheet() -> Result<CheckedSheet, Refusal> {
    let mut sheet = CheckedSheet::empty();
    judge(&TABLES, &NODES, &STATEMENTS, &mut sheet)?;
    Ok(sheet)
}

fn place(row: u16, column: u16) -> Index
    ensures { coordinates result ≡ row ∷ column ∷ [] }
{
    Index::try_from([row, column].as_slice()).unwrap()
}

// A call that nothing has replied to yet.
fn entry(call: Call<Metres>) -> Entry<Metres> {
    Entry {
        call,
        left: Ok(Outcome::Done),
        right: Ok(Outcome::Done),
    }
}

fn put(variable: usize, row: u16, column: u16, value: i64) -> Entry<Metres> {
    entry(Call::Put {
        variable,
        index: place(row, column),
        element: Metres::of(value),
    })
}

fn fetch(row: u16, column: u16) -> Entry<Metres> {
    entry(Call::Fetch {
        variable: 3,
        index: place(row, column),
    })
}

// A = 1 2 3 4 5 6 and B = 1 0 2 1 0 3, the last coordinate running fastest; one step; the four elements of C.
pub(super) fn calls() -> [Entry<Metres>; 17] {
    [
        put(1, 1, 1, 1),
        put(1, 1, 2, 2),
        put(1, 1, 3, 3),
        put(1, 2, 1, 4),
        put(1, 2, 2, 5),
        put(1, 2, 3, 6),
        put(2, 1, 1, 1),
        put(2, 1, 2, 0),
        put(2, 2, 1, 2),
        put(2, 2, 2, 1),
        put(2, 3, 1, 0),
        put(2, 3, 2, 3),
        entry(Call::Step { size: 4096 }),
        fetch(1, 1),
        fetch(1, 2),
        fetch(2, 1),
        fetch(2, 2),
    ]
}
