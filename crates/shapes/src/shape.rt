// A shape: at most four extents from 1 to 64, with at most 4,096 places.
ghost use Rattle.std.specs.Prelude.{◌≡◌, true};
ghost use Rattle.indices.specs.Coordinates.{coordinates};
ghost use Rattle.indices.specs.Places.{proper};

use indices::index::Index;

#[derive(Clone, Copy)]
pub struct Shape {
    pub(crate) extents: Index,
    ghost sound: { proper (coordinates extents) ≡ true },
}
