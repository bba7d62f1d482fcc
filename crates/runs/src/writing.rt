// Writing a tray's elements to the places of one variable.
ghost use Rattle.std.specs.Prelude.{◌≡◌, ◌≤◌, true, length, is_ok};
ghost use Rattle.indices.specs.Places.{has, pick, product};
ghost use Rattle.shapes.specs.Shapes.{extents_of};
ghost use Rattle.runs.specs.Writing.{SpareZero, Wrote};

use elements::kind::Kind;
use refusals::refusal::Refusal;
use shapes::shape::Shape;
use stores::store::Store;

// Writes the elements of a tray to every place in reach of variable v, the last coordinate running fastest. A store that keeps its
// meaning refuses none.
pub(crate) fn write_all<K: Kind, S: Store<Item = K>>(
    s: &mut S,
    v: usize,
    reach: &Shape,
    tray: &[K],
) -> Result<(), Refusal>
    requires known { has (S.Store.meaning s.old).shapes v ≡ true }
    requires wide { pick (S.Store.meaning s.old).reach v ≡ extents_of reach.now }
    requires room { product (extents_of reach.now) ≤ length tray.now }
    requires spare { SpareZero K.Kind.algebra.zero (S.Store.meaning s.old) v tray.now }
    ensures all { is_ok result ≡ true }
    ensures wrote { Wrote K.Kind.algebra.zero (S.Store.meaning s.old) v tray.now (S.Store.meaning s.new) }
{
    for (k, x) in tray[..reach.size()].iter().enumerate() {
        let Some(at) = reach.index(k) else {
            return Err(Refusal::OutOfReach);
        };
        s.write(v, at.as_slice(), *x)?;
    }
    Ok(())
}
