// Cells: a store that keeps its elements in a vector, variable after variable, the last coordinate running fastest.
ghost use Rattle.std.specs.Prelude.{◌≡◌, ◌≤◌, false, length, is_ok, IfOk, if◌then◌else◌, vec_len, slice_index_or, slice_set};
ghost use Rattle.indices.specs.Places.{total, cell};
ghost use Rattle.refusals.specs.Refusals.{answer, answered, done, and_then, opened, held};
ghost use Rattle.shapes.specs.Shapes.{shapes_of, place_answer};
ghost use Rattle.stores.specs.Cells.{flat, cells_answer};
ghost use Rattle.stores.specs.Meaning.{read_answer, write_answer, Written};
ghost use Rattle.stores.specs.Flat.{flat_lawful};

use super::store::Store;
use elements::kind::Kind;
use refusals::refusal::{Declined, Refusal};
use shapes::declaration::Declaration;
use shapes::table::Table;

// Elements beyond those of the last variable are kept and never touched.
#[derive(Drop)]
pub struct Cells<K> {
    table: Table,
    elements: Vec<K>,
    ghost holds: { total (shapes_of table) ≤ vec_len elements },
}

impl<K: Kind> Cells<K> {
    // A store over these elements, as they are.
    pub fn open(declared: &[Declaration], elements: Vec<K>) -> Result<Cells<K>, Declined<Vec<K>>>
        ensures answer { opened (λ c. shapes_of c.table) result ≡ cells_answer declared.now (vec_len elements) }
        ensures memory { held (λ c. c.elements) result ≡ elements }
    {
        // the elements move into one of two branches, so no closure can take them
        match judge(declared, elements.len()) {
            Ok(table) => Ok(Cells { table, elements }),
            Err(refusal) => Err(Declined {
                refusal,
                value: elements,
            }),
        }
    }

    // The elements, given back.
    pub fn close(self) -> Vec<K>
        ensures { result ≡ self.elements }
    {
        let Cells { table: _, elements } = self;
        elements
    }
}

// The declared shapes, if so many elements are enough for them.
fn judge(declared: &[Declaration], elements: usize) -> Result<Table, Refusal>
    ensures answer { answer shapes_of result ≡ cells_answer declared.now elements }
    ensures enough { IfOk result (λ t. total (shapes_of t) ≤ elements) }
{
    let table = Table::try_from(declared)?;
    if table.total() > elements {
        return Err(Refusal::TooFewElements);
    }
    Ok(table)
}

impl<K: Kind> Store for Cells<K> {
    type Item = K;

    ghost meaning = { λ c. flat K.Kind.algebra.zero (shapes_of c.table) c.elements.items };

    ghost lawful = { λ s. flat_lawful K.Kind.algebra.zero s.table s.elements.items };

    fn table(&self) -> &Table {
        &self.table
    }

    fn rounded(&self, v: usize, d: usize) -> Result<u16, Refusal> {
        self.extent(v, d)
    }

    fn read(&self, v: usize, index: &[u16]) -> Result<K, Refusal>
        ensures answer { answered result ≡ read_answer (flat K.Kind.algebra.zero (shapes_of self.now.table) self.now.elements.items) v index.now }
        ensures element { answered result ≡ and_then (place_answer (shapes_of self.now.table) v index.now) (λ k. done (slice_index_or self.now.elements.items k K.Kind.algebra.zero)) }
    {
        let k = self.table.place(v, index)?;
        Ok(self.elements[k])
    }

    fn write(&mut self, v: usize, index: &[u16], x: K) -> Result<(), Refusal>
        ensures answer { answered result ≡ write_answer K.Kind.algebra (flat K.Kind.algebra.zero (shapes_of self.old.table) self.old.elements.items) v index.now x }
        ensures same { is_ok result ≡ false → self.new ≡ self.old }
        ensures written { Written (is_ok result) (flat K.Kind.algebra.zero (shapes_of self.old.table) self.old.elements.items) v index.now x (flat K.Kind.algebra.zero (shapes_of self.new.table) self.new.elements.items) }
        ensures table { self.new.table ≡ self.old.table }
        ensures elements { self.new.elements.items ≡ (if is_ok result then slice_set self.old.elements.items (cell (shapes_of self.old.table) v index.now) x else self.old.elements.items) }
    {
        let at = self.table.place(v, index)?;
        self.elements[at] = x;
        Ok(())
    }
}
