// The padding layer, a store over any store.
ghost use Rattle.std.specs.Prelude.{◌≡◌, IfOk, MatchResult};
ghost use Rattle.refusals.specs.Refusals.{answer, opened};
ghost use Rattle.shapes.specs.Shapes.{shapes_of};
ghost use Rattle.padding.specs.Padding.{padded, Blank, Cleared, padding_answer};
ghost use Rattle.padding.specs.Rounding.{all_rounded};
ghost use Rattle.padding.specs.Padded.{padded_from, padded_lawful};

use super::clearing;
use super::vector_length::VectorLength;
pub use super::vector_length::vector_lengths;
use elements::kind::{Kind, is_zero};
use refusals::refusal::{Declined, Refusal};
use shapes::declaration::Declaration;
use shapes::table::Table;
use stores::matching::difference;
use stores::mismatch::Mismatch;
use stores::store::Store;

// The true shapes over a store that has the rounded ones; every place in reach below and outside its true shape holds zero.
#[derive(Drop)]
pub struct Padding<S: Store> {
    table: Table,
    m: VectorLength,
    below: S,
    pub ghost wide: { (S.Store.meaning below).shapes ≡ all_rounded m.count (shapes_of table) },
    pub ghost blank: { Blank S.Item.Kind.algebra (shapes_of table) (S.Store.meaning below) },
}

// The declared shapes and the vector length; the store below has the rounded shapes.
fn judge<S: Store>(
    declared: &[Declaration],
    m: u16,
    below: &S,
) -> Result<(Table, VectorLength), Refusal>
    ensures answer { answer (λ p. shapes_of p.0) result ≡ padding_answer declared.now m (S.Store.meaning below.now).shapes }
    ensures wide { IfOk result (λ p. (p.1.count ≡ m) × ((S.Store.meaning below.now).shapes ≡ all_rounded m (shapes_of p.0))) }
{
    let table = Table::try_from(declared)?;
    let length = VectorLength::try_from(m)?;
    let wide = length.round_table(&table)?;
    match difference(&wide, below) {
        Ok(()) => Ok((table, length)),
        Err(Mismatch::Count) => Err(Refusal::OtherCountBelow),
        Err(Mismatch::Shape(k)) => Err(Refusal::OtherShapeBelow(k)),
    }
}

// A layer with vector length m over the store; the places outside the true shapes are made zero.
pub fn open<K: Kind, S: Store<Item = K>>(
    declared: &[Declaration],
    m: u16,
    mut below: S,
) -> Result<Padding<S>, Declined<S>>
    ensures answer { opened (λ p. shapes_of p.table) result ≡ padding_answer declared.now m (S.Store.meaning below).shapes }
    ensures made { MatchResult result (λ p. (p.m.count ≡ m) × Cleared K.Kind.algebra.zero (shapes_of p.table) (S.Store.meaning below) (S.Store.meaning p.below)) (λ d. d.value ≡ below) }
{
    // the store moves into one of two branches, so no closure can take it
    match judge(declared, m, &below) {
        Ok((table, m)) => {
            clearing::clear_all(&mut below, &table);
            Ok(Padding { table, m, below })
        }
        Err(refusal) => Err(Declined {
            refusal,
            value: below,
        }),
    }
}

impl<S: Store> Padding<S> {
    // The store below, given back.
    pub fn close(self) -> S
        ensures { result ≡ self.below }
    {
        let Padding {
            table: _,
            m: _,
            below,
        } = self;
        below
    }
}

impl<S: Store> Store for Padding<S> {
    type Item = S::Item;

    ghost meaning = { λ p. padded (shapes_of p.table) (S.Store.meaning p.below) };

    ghost lawful = { λ s. padded_lawful S.Item.Kind.algebra.zero s.m.count s.table (S.Store.meaning s.below) (S.Store.lawful s.below) (padded_from S.Item.Kind.algebra s.m.count (shapes_of s.table) (S.Store.meaning s.below) S.Item.Kind.lawful s.m.low s.wide s.blank) };

    fn table(&self) -> &Table {
        &self.table
    }

    fn rounded(&self, v: usize, d: usize) -> Result<u16, Refusal> {
        self.below.rounded(v, d)
    }

    fn read(&self, v: usize, index: &[u16]) -> Result<S::Item, Refusal> {
        self.below.read(v, index)
    }

    fn write(&mut self, v: usize, index: &[u16], x: S::Item) -> Result<(), Refusal> {
        if !is_zero(x) && !self.table.contains(v, index) {
            self.below.read(v, index)?;
            return Err(Refusal::SpareTakesZero);
        }
        self.below.write(v, index, x)
    }
}
