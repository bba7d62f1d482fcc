// Elements as codes: how they are fetched, and what operations make of them.
ghost use Rattle.std.specs.Prelude.{◌≡◌, true};
ghost use Rattle.indices.specs.Coordinates.{coordinates};
ghost use Rattle.sheets.specs.Terms.{meant};
ghost use Rattle.stores.specs.Meaning.{in_reach};
ghost use Rattle.evaluation.specs.Machine.{decoded};
ghost use Rattle.evaluation.specs.Value.{applied};

use super::site::Site;
use elements::kind::Kind;
use indices::index::Index;
use sheets::term::Operation;
use stores::store::Store;

// The value that a code stands for; zero where it stands for none.
pub(crate) fn value_of<K: Kind>(code: u64) -> K
    ensures { result ≡ decoded K.Kind.algebra code }
{
    K::decode(code).unwrap_or(K::zero())
}

pub(crate) fn zero_code<K: Kind>() -> u64
    ensures { decoded K.Kind.algebra result ≡ K.Kind.algebra.zero }
{
    let zero: K = K::zero();
    zero.code()
}

fn apply<K: Kind>(operation: Operation, x: K, y: K) -> K
    ensures { result ≡ applied K.Kind.algebra (meant operation) x y }
{
    // a match: which operation it is stands in the sheet, as data
    match operation {
        Operation::Plus => x.sum(y),
        Operation::Minus => x.difference(y),
        Operation::Times => x.product(y),
        Operation::Over => x.quotient(y),
    }
}

// The code of what an operation makes of two values.
pub(crate) fn combined<K: Kind>(operation: Operation, left: u64, right: u64) -> u64
    ensures { decoded K.Kind.algebra result ≡ applied K.Kind.algebra (meant operation) (decoded K.Kind.algebra left) (decoded K.Kind.algebra right) }
{
    let x: K = value_of(left);
    let y: K = value_of(right);
    apply(operation, x, y).code()
}

impl<K: Kind, S: Store<Item = K>> Site<'_, S> {
    // The code of the element at a place in reach.
    pub(crate) fn fetch(&self, v: u16, at: Index) -> u64
        requires { in_reach (S.Store.meaning self.now.store.now) v (coordinates at) ≡ true }
        ensures { decoded K.Kind.algebra result ≡ (S.Store.meaning self.now.store.now).at v (coordinates at) }
    {
        self.store.read(v as usize, at.as_slice()).unwrap().code()
    }
}
