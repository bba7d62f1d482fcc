// Sheets that pass, and the first thing wrong with others.
use super::checked::CheckedSheet;
use super::node::{Node, Statement};
use super::verdict::judge;
use refusals::refusal::Refusal;
use shapes::declaration::Declaration;

fn table(rank: u16, rows: u16, columns: u16) -> Declaration {
    Declaration {
        rank,
        extents: [rows, columns, 0, 0],
    }
}

// A (2 3), B (3 2), C (2 2), a scalar and a vector of 5.
fn tables() -> [Declaration; 5] {
    [
        table(2, 2, 3),
        table(2, 3, 2),
        table(2, 2, 2),
        table(0, 0, 0),
        table(1, 5, 0),
    ]
}

fn variable(a: u16) -> Node {
    Node {
        kind: 1,
        a,
        ..Node::default()
    }
}

fn pair(kind: u16, a: u16, b: u16) -> Node {
    Node {
        kind,
        a,
        b,
        ..Node::default()
    }
}

fn over(kind: u16, a: u16, m: u16, n: u16) -> Node {
    Node {
        kind,
        a,
        m,
        n,
        ..Node::default()
    }
}

fn turned(a: u16) -> Node {
    over(7, a, 1, 2)
}

fn assign(variable: u16, node: u16) -> Statement {
    Statement { variable, node }
}

// The verdict on these nodes and statements, over the tables.
fn verdict(nodes: &[Node], statements: &[Statement]) -> Result<(), Refusal> {
    let mut sheet = CheckedSheet::empty();
    judge(&tables(), nodes, statements, &mut sheet)
}

#[test]
fn a_product_and_its_trace(rt: HostRuntime) {
    let nodes = [
        variable(1),
        variable(2),
        pair(2, 1, 2),
        over(8, 3, 2, 3),
        variable(3),
        over(8, 5, 1, 2),
    ];
    let mut sheet = CheckedSheet::empty();
    assert_eq!(rt;
        judge(&tables(), &nodes, &[assign(3, 4), assign(4, 6)], &mut sheet),
        Ok(())
    );
    assert_eq!(rt; sheet.last_writer(3, 3), Ok(Some(1)));
    assert_eq!(rt; sheet.last_writer(4, 2), Ok(None));
    assert_eq!(rt; sheet.last_writer(4, 3), Ok(Some(2)));
    assert_eq!(rt; sheet.last_writer(6, 1), Err(Refusal::OutOfSheet));
    assert_eq!(rt; sheet.last_writer(3, 0), Err(Refusal::OutOfSheet));
    assert_eq!(rt; sheet.last_writer(3, 4), Err(Refusal::OutOfSheet));
}

#[test]
fn ranks_and_nestings_have_bounds(rt: HostRuntime) {
    let square = variable(3);
    let four = pair(2, 1, 1);
    let eight = pair(2, 2, 2);
    assert_eq!(rt; verdict(&[square, four, eight], &[]), Ok(()));
    assert_eq!(rt;
        verdict(&[square, four, eight, variable(5), pair(2, 3, 4)], &[]),
        Err(Refusal::TooDeep(5))
    );
    let three = [
        square,
        four,
        eight,
        over(8, 3, 1, 2),
        over(8, 4, 1, 2),
        over(8, 5, 1, 2),
    ];
    assert_eq!(rt; verdict(&three, &[]), Ok(()));
    let all = [
        square,
        four,
        eight,
        over(8, 3, 1, 2),
        over(8, 4, 1, 2),
        over(8, 5, 1, 2),
        over(8, 6, 1, 2),
    ];
    assert_eq!(rt; verdict(&all, &[]), Err(Refusal::TooDeep(7)));
}

#[test]
fn depths_and_tables_have_bounds(rt: HostRuntime) {
    let chain = [
        variable(3),
        turned(1),
        turned(2),
        turned(3),
        turned(4),
        turned(5),
        turned(6),
        turned(7),
        turned(8),
        turned(9),
        turned(10),
        turned(11),
        turned(12),
        turned(13),
        turned(14),
        turned(15),
        turned(16),
    ];
    assert_eq!(rt; verdict(&chain[..16], &[]), Ok(()));
    assert_eq!(rt; verdict(&chain, &[]), Err(Refusal::TooDeep(17)));
    assert_eq!(rt; verdict(&[variable(1); 256], &[assign(1, 1); 64]), Ok(()));
    assert_eq!(rt;
        verdict(&[variable(1); 257], &[]),
        Err(Refusal::TooManyRows)
    );
    assert_eq!(rt;
        verdict(&[variable(1)], &[assign(1, 1); 65]),
        Err(Refusal::TooManyRows)
    );
}

#[test]
fn nodes_are_refused(rt: HostRuntime) {
    let scalar = variable(4);
    let vector = variable(5);
    assert_eq!(rt;
        verdict(&[scalar, vector, pair(5, 1, 2), pair(6, 2, 1)], &[]),
        Ok(())
    );
    assert_eq!(rt;
        verdict(&[scalar, vector, pair(5, 2, 1)], &[]),
        Err(Refusal::NoType(3))
    );
    assert_eq!(rt;
        verdict(&[scalar, vector, pair(6, 1, 2)], &[]),
        Err(Refusal::NoType(3))
    );
    assert_eq!(rt;
        verdict(&[variable(1), over(8, 1, 1, 2)], &[]),
        Err(Refusal::NoType(2))
    );
    assert_eq!(rt;
        verdict(&[variable(3), over(8, 1, 1, 1)], &[]),
        Err(Refusal::NoType(2))
    );
    assert_eq!(rt; verdict(&[pair(1, 1, 1)], &[]), Err(Refusal::BadNode(1)));
    assert_eq!(rt;
        verdict(&[variable(1), pair(3, 2, 2)], &[]),
        Err(Refusal::BadOperand(2))
    );
    assert_eq!(rt;
        verdict(&[variable(6), pair(9, 1, 1)], &[]),
        Err(Refusal::BadOperand(1))
    );
}

#[test]
fn statements_are_refused(rt: HostRuntime) {
    let nodes = [variable(1), variable(2)];
    assert_eq!(rt; verdict(&nodes, &[assign(1, 1), assign(2, 2)]), Ok(()));
    assert_eq!(rt;
        verdict(&nodes, &[assign(1, 1), assign(2, 3)]),
        Err(Refusal::BadTarget(2))
    );
    assert_eq!(rt;
        verdict(&nodes, &[assign(6, 1)]),
        Err(Refusal::BadTarget(1))
    );
    assert_eq!(rt;
        verdict(&nodes, &[assign(1, 2), assign(6, 1)]),
        Err(Refusal::OtherType(1))
    );
}
