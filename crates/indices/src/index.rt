// An index by value: up to eight coordinates.
ghost use Rattle.std.specs.Prelude.{◌≡◌, ◌≤◌, length};

// An array and a length, since an index is copied wherever it goes; an `ArrayVec` is no `Copy` type, and its clone can fail.
#[derive(Clone, Copy)]
pub struct Index {
    pub(crate) len: usize,
    pub(crate) coords: [u16; 8],
    ghost whole: { length coords ≡ 8 },
    ghost small: { len ≤ 8 },
}
