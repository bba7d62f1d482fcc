// The sheet that works on the tables A (2 3), B (3 2), C (2 2) and a scalar D.
use refusals::refusal::Refusal;
use samples::tables::WITH_SCALAR;
use sheets::checked::CheckedSheet;
use sheets::node::{Node, Statement};
use sheets::verdict::judge;

fn node(kind: u16, a: u16, b: u16, m: u16, n: u16) -> Node {
    Node { kind, a, b, m, n }
}

fn assign(variable: u16, node: u16) -> Statement {
    Statement { variable, node }
}

// C gets the product of A and B, and D its trace.
pub(super) fn sheet() -> Result<CheckedSheet, Refusal> {
    let nodes = [
        node(1, 1, 0, 0, 0),
        node(1, 2, 0, 0, 0),
        node(2, 1, 2, 0, 0),
        node(8, 3, 0, 2, 3),
        node(8, 4, 0, 1, 2),
    ];
    let mut sheet = CheckedSheet::empty();
    judge(
        &WITH_SCALAR,
        &nodes,
        &[assign(3, 4), assign(4, 5)],
        &mut sheet,
    )?;
    Ok(sheet)
}
