// What a table of shapes answers about its variables.
ghost use Rattle.std.specs.Prelude.{◌≡◌, ◌*◌, ◌≤◌, ◌&&◌, map, length, take};
ghost use Rattle.indices.specs.Places.{total as total_of, has, pick, within};
ghost use Rattle.refusals.specs.Refusals.{answered, answer};
ghost use Rattle.shapes.specs.Shapes.{extents_of, shapes_of, shape_answer, rank_answer, extent_answer, place_answer};

use super::shape::Shape;
use super::table::Table;
use refusals::refusal::Refusal;

impl Table {
    // How many variables there are.
    pub fn len(&self) -> usize
        ensures { result ≡ length (shapes_of self.now) }
    {
        self.len
    }

    // The shapes, variable after variable.
    pub fn shapes(&self) -> &[Shape]
        ensures shapes { map extents_of result.now ≡ shapes_of self.now }
        ensures count { length result.now ≡ length (shapes_of self.now) }
        ensures few { length result.now ≤ 16 }
    {
        &self.shapes[..self.len]
    }

    // The shape of a variable, from 1.
    pub fn shape(&self, v: usize) -> Result<Shape, Refusal>
        ensures { answer extents_of result ≡ shape_answer (shapes_of self.now) v }
    {
        if v < 1 || v > self.len {
            return Err(Refusal::NoSuchVariable);
        }
        Ok(self.shapes[v - 1])
    }

    // The rank of a variable.
    pub fn rank(&self, v: usize) -> Result<usize, Refusal>
        ensures { answered result ≡ rank_answer (shapes_of self.now) v }
    {
        Ok(self.shape(v)?.rank())
    }

    // The extent of a dimension of a variable, both from 1.
    pub fn extent(&self, v: usize, d: usize) -> Result<u16, Refusal>
        ensures { answered result ≡ extent_answer (shapes_of self.now) v d }
    {
        let shape = self.shape(v)?;
        let es = shape.extents();
        if d < 1 || d > es.len() {
            return Err(Refusal::NoSuchVariable);
        }
        Ok(es[d - 1])
    }

    // How many places all variables have.
    pub fn total(&self) -> usize
        ensures { result ≡ total_of (shapes_of self.now) }
    {
        self.before(self.len)
    }

    // The number of a place through all variables, variable after variable, each row-major, from 0.
    pub fn place(&self, v: usize, index: &[u16]) -> Result<usize, Refusal>
        ensures { answered result ≡ place_answer (shapes_of self.now) v index.now }
    {
        match self.shape(v)?.place(index) {
            Some(n) => Ok(self.before(v - 1) + n),
            None => Err(Refusal::OutOfReach),
        }
    }

    // Whether an index lies in the shape of a variable.
    pub fn contains(&self, v: usize, index: &[u16]) -> bool
        ensures { result ≡ (has (shapes_of self.now) v && within (pick (shapes_of self.now) v) index.now) }
    {
        self.shape(v).is_ok_and(|shape| shape.contains(index))
    }

    // How many places the first n variables have.
    fn before(&self, n: usize) -> usize
        requires { n ≤ self.now.len }
        ensures value { result ≡ total_of (take n (shapes_of self.now)) }
        ensures few { result ≤ 4096 * n }
    {
        let mut sum: usize = 0;
        for shape in &self.shapes[..n] {
            sum += shape.size();
        }
        sum
    }
}
