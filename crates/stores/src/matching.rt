// Whether a store has just the shapes that are wanted.
ghost use Rattle.std.specs.Prelude.{◌≡◌, not};
ghost use Rattle.std.specs.List.{position, zip};
ghost use Rattle.indices.specs.Dimensions.{same};
ghost use Rattle.shapes.specs.Shapes.{extents_of, shapes_of};
ghost use Rattle.stores.specs.Matching.{difference as difference_of};

use super::mismatch::Mismatch;
use super::store::Store;
use shapes::shape::Shape;
use shapes::table::Table;

// Ok where the store has just these shapes.
pub fn difference<S: Store>(wanted: &Table, s: &S) -> Result<(), Mismatch>
    ensures { result ≡ difference_of (shapes_of wanted.now) (S.Store.meaning s.now).shapes }
{
    let own = s.table();
    if wanted.len() != own.len() {
        return Err(Mismatch::Count);
    }
    match first_other(wanted.shapes(), own.shapes()) {
        Some(k) => Err(Mismatch::Shape(k + 1)),
        None => Ok(()),
    }
}

// Where the first shape stands that is another than the one beside it, from 0.
fn first_other(ones: &[Shape], others: &[Shape]) -> Option<usize>
    ensures { result ≡ position (λ p. not (same (extents_of p.0) (extents_of p.1))) (zip ones.now others.now) }
{
    ones.iter()
        .zip(others)
        .position(|(one, other)| one.extents() != other.extents())
}
