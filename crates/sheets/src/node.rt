// The rows of a sheet's tables, as they are handed in.

// What the fields mean depends on the kind; those that a kind does not use are zero. Operands are earlier nodes, from 1.
// The kind is a number here, as it is handed in: which numbers are kinds is a question of the verdict, and `Form` what they are read as.
#[derive(Clone, Copy, PartialEq, Eq, Default, Debug)]
pub struct Node {
    pub kind: u16,
    pub a: u16,
    pub b: u16,
    pub m: u16,
    pub n: u16,
}

// A variable gets the value of a node.
#[derive(Clone, Copy, PartialEq, Eq, Default, Debug)]
pub struct Statement {
    pub variable: u16,
    pub node: u16,
}
