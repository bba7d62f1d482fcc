// Places and their row-major and column-major numbers, over any list of extents.
ghost use Rattle.std.specs.Prelude.{◌≡◌, ◌<◌, ◌≤◌, ◌&&◌, true, Some, length, nat_le};
ghost use Rattle.std.specs.List.{list_all, zip};
ghost use Rattle.std.specs.Option.{option_map};
ghost use Rattle.indices.specs.Coordinates.{coordinates};
ghost use Rattle.indices.specs.Places.{each, product as product_of, within, place, unplace, column as column_of};
ghost use Rattle.shapes.specs.Shapes.{zeros};

use indices::index::Index;

// Whether each extent is from 1 to 64.
pub(super) fn in_range(es: &[u16]) -> bool
    ensures { result ≡ each es.now }
{
    es.iter().all(|e| 1 <= *e && *e <= 64)
}

pub(super) fn all_zero(es: &[u16]) -> bool
    ensures { result ≡ zeros es.now }
{
    es.iter().all(|e| *e == 0)
}

// How many places there are.
pub(super) fn product(es: &[u16]) -> usize
    requires { (each es.now ≡ true) × (length es.now ≤ 4) }
    ensures { result ≡ product_of es.now }
{
    let mut n: usize = 1;
    for e in es {
        n *= *e as usize;
    }
    n
}

// Whether an index lies in the extents.
pub(super) fn contains(es: &[u16], index: &[u16]) -> bool
    ensures { result ≡ within es.now index.now }
{
    es.len() == index.len() && all_reached(es, index)
}

// Whether each coordinate, beside its extent, is from 1 to that.
fn all_reached(es: &[u16], index: &[u16]) -> bool
    ensures { result ≡ list_all (λ p. nat_le 1 p.1 && nat_le p.1 p.0) (zip es.now index.now) }
{
    es.iter().zip(index).all(|(e, i)| 1 <= *i && *i <= *e)
}

// The number of a place, the last coordinate running fastest.
pub(super) fn number(es: &[u16], index: &[u16]) -> usize
    requires { (within es.now index.now ≡ true) × (product_of es.now ≤ 4096) }
    ensures { result ≡ place es.now index.now }
{
    let mut n: usize = 0;
    for (e, i) in es.iter().zip(index) {
        n = n * *e as usize + (*i as usize - 1);
    }
    n
}

// The number of a place, the first coordinate running fastest.
pub(super) fn column(es: &[u16], index: &[u16]) -> usize
    requires inside { within es.now index.now ≡ true }
    requires places { product_of es.now ≤ 4096 }
    ensures { result ≡ column_of es.now index.now }
{
    let mut n: usize = 0;
    let mut block: usize = 1;
    for (e, i) in es.iter().zip(index) {
        n += block * (*i as usize - 1);
        block *= *e as usize;
    }
    n
}

// The place of a number.
pub(super) fn index_of(es: &[u16], number: usize) -> Option<Index>
    requires sound { each es.now ≡ true }
    requires rank { length es.now ≤ 4 }
    requires inside { number < product_of es.now }
    requires places { product_of es.now ≤ 4096 }
    ensures { option_map coordinates result ≡ Some (unplace es.now number) }
{
    let mut coords = [0u16; 4];
    let mut block = product(es);
    let mut left = number;
    for (d, e) in es.iter().enumerate() {
        block /= *e as usize;
        coords[d] = (left / block) as u16 + 1;
        left %= block;
    }
    Index::try_from(&coords[..es.len()]).ok()
}
