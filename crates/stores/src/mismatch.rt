// How the shapes of a store differ from those that are wanted.

// The number of variables differs, or the shape of a variable, counted from 1, is the first to differ.
#[derive(Clone, Copy, PartialEq, Eq, Debug)]
pub enum Mismatch {
    Count,
    Shape(usize),
}
