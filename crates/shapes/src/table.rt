// The shapes of the variables of a store or a sheet, at most 16.
ghost use Rattle.std.specs.Prelude.{◌≡◌, ◌≤◌, length};

use super::shape::Shape;

// An array and a length, since a table is copied where memory may not run out; an `ArrayVec` is no `Copy` type, and its clone can fail.
#[derive(Clone, Copy)]
pub struct Table {
    pub(crate) len: usize,
    pub(crate) shapes: [Shape; 16],
    ghost whole: { length shapes ≡ 16 },
    ghost few: { len ≤ 16 },
}
