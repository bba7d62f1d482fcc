// An evaluation under way: the node or the value in focus, and what is to be made of its value. Values are kept as codes.

use arrayvec::ArrayVec;
use indices::index::Index;
use sheets::term::Operation;

// Left: the value in focus is an operation's first operand, and the second is still to be worked out.
// Right: it is the second operand.
// Sum: it is the l-th of `limit` values of a node that are added.
#[derive(Clone, Copy)]
pub(crate) enum Frame {
    Left {
        operation: Operation,
        right: u16,
        at: Index,
    },
    Right {
        operation: Operation,
        left: u64,
    },
    Sum {
        node: u16,
        at: Index,
        m: u16,
        n: u16,
        l: u16,
        limit: u16,
        sum: u64,
    },
}

// A node is to be worked out at an index, or a value was.
#[derive(Clone, Copy)]
pub(crate) enum Focus {
    Down { node: u16, at: Index },
    Up { code: u64 },
}

// What the unused places of a stack hold.
impl Default for Frame {
    fn default() -> Frame {
        Frame::Right {
            operation: Operation::Plus,
            left: 0,
        }
    }
}

// The frames that wait, the last one at the end. A node has a depth of at most 16 and each frame stands above a deeper node,
// so fifteen are enough.
pub(crate) type Stack = ArrayVec<Frame, 15>;
