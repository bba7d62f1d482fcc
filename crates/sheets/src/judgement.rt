// What the verdict finds out about a node that passes.
ghost use Rattle.std.specs.Prelude.{◌≤◌};

use indices::index::Index;

// Its extents, at most eight; a variable has depth 1, any other node one more than its deepest operand; nesting is the
// largest number of contractions on a path down from it.
#[derive(Clone, Copy)]
pub struct Judgement {
    pub(crate) extents: Index,
    pub(crate) depth: u16,
    pub(crate) nesting: u16,
    ghost low: { depth ≤ 16 },
    ghost flat: { nesting ≤ 3 },
}

// What fills a table behind its last node.
impl Default for Judgement {
    fn default() -> Judgement {
        Judgement {
            extents: Index::empty(),
            depth: 0,
            nesting: 0,
        }
    }
}
