// What a node of a checked sheet is made of.

#[derive(Clone, Copy, PartialEq, Eq, Debug)]
pub enum Operation {
    Plus,
    Minus,
    Times,
    Over,
}

// Operands are earlier nodes, from 1; dimensions m and n count from 1.
#[derive(Clone, Copy, PartialEq, Eq, Debug)]
pub enum Term {
    Variable {
        variable: u16,
    },
    Outer {
        a: u16,
        b: u16,
    },
    Pointwise {
        operation: Operation,
        a: u16,
        b: u16,
    },
    Turned {
        a: u16,
        m: u16,
        n: u16,
    },
    Contracted {
        a: u16,
        m: u16,
        n: u16,
    },
}
