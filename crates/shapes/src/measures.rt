// Shapes: how they come of a declaration, and which places they have.
ghost use Rattle.std.specs.Prelude.{◌≡◌, ◌<◌, [], length, reverse, IfSome};
ghost use Rattle.std.specs.Option.{option_map};
ghost use Rattle.std.specs.Result.{result_ok};
ghost use Rattle.indices.specs.Places.{product, within};
ghost use Rattle.shapes.specs.Shapes.{extents_of, shape_declared, place_in, column_in, index_in};
ghost use Rattle.indices.specs.Coordinates.{coordinates};

use super::declaration::Declaration;
use super::places;
use super::shape::Shape;
use indices::index::Index;

// What is said of a declaration that is no shape with zeros after it.
#[derive(Clone, Copy, PartialEq, Eq, Debug)]
pub struct NoShape;

// The shape that is declared, if it is one.
impl TryFrom<&Declaration> for Shape {
    type Error = NoShape;

    ghost try_from_gives = { λ d r. option_map extents_of (result_ok r) ≡ shape_declared d.now };

    fn try_from(declared: &Declaration) -> Result<Shape, NoShape> {
        let rank = declared.rank as usize;
        if rank > 4 {
            return Err(NoShape);
        }
        let extents = &declared.extents[..rank];
        if !places::in_range(extents) {
            return Err(NoShape);
        }
        if !places::all_zero(&declared.extents[rank..]) {
            return Err(NoShape);
        }
        if places::product(extents) > 4096 {
            return Err(NoShape);
        }
        match Index::try_from(extents) {
            Ok(extents) => Ok(Shape { extents }),
            Err(_) => Err(NoShape),
        }
    }
}

// Its extents by value.
impl From<Shape> for Index {
    ghost from_gives = { λ s i. coordinates i ≡ extents_of s };

    fn from(shape: Shape) -> Index {
        shape.extents
    }
}

impl Shape {
    // The shape of a scalar.
    pub fn scalar() -> Shape
        ensures { extents_of result ≡ [] }
    {
        Shape {
            extents: Index::empty(),
        }
    }

    pub fn rank(&self) -> usize
        ensures { result ≡ length (extents_of self.now) }
    {
        self.extents().len()
    }

    pub fn extents(&self) -> &[u16]
        ensures { result.now ≡ extents_of self.now }
    {
        self.extents.as_slice()
    }

    // How many places it has.
    pub fn size(&self) -> usize
        ensures { result ≡ product (extents_of self.now) }
    {
        places::product(self.extents())
    }

    // Whether an index lies in it.
    pub fn contains(&self, index: &[u16]) -> bool
        ensures { result ≡ within (extents_of self.now) index.now }
    {
        places::contains(self.extents(), index)
    }

    // The number of a place, row-major from 0, if it lies in the shape.
    pub fn place(&self, index: &[u16]) -> Option<usize>
        ensures value { result ≡ place_in (extents_of self.now) index.now }
        ensures bound { IfSome result (λ n. n < 4096) }
    {
        let es = self.extents();
        if places::contains(es, index) {
            Some(places::number(es, index))
        } else {
            None
        }
    }

    // The number of a place, column-major from 0, if it lies in the shape: the row-major one in the shape turned round.
    pub fn column(&self, index: &[u16]) -> Option<usize>
        ensures value { result ≡ column_in (extents_of self.now) index.now }
        ensures turned { result ≡ place_in (reverse (extents_of self.now)) (reverse index.now) }
        ensures bound { IfSome result (λ n. n < 4096) }
    {
        let es = self.extents();
        if places::contains(es, index) {
            Some(places::column(es, index))
        } else {
            None
        }
    }

    // The index whose row-major number this is, if there is one.
    pub fn index(&self, number: usize) -> Option<Index>
        ensures { option_map coordinates result ≡ index_in (extents_of self.now) number }
    {
        if number >= self.size() {
            return None;
        }
        places::index_of(self.extents(), number)
    }
}
