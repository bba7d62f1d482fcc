// The image, a store over a byte buffer.
ghost use Rattle.std.specs.Prelude.{◌≡◌, false, is_ok, if◌then◌else◌};
ghost use Rattle.refusals.specs.Refusals.{answer, answered, opened, held};
ghost use Rattle.shapes.specs.Shapes.{shapes_of};
ghost use Rattle.stores.specs.Meaning.{read_answer, write_answer, Written};
ghost use Rattle.images.specs.Bytes.{bytes as bytes_of, patched};
ghost use Rattle.images.specs.Image.{imaged, image_answer, spot_answer};
ghost use Rattle.images.specs.Layout.{Laid, spot as spot_of};
ghost use Rattle.images.specs.Cells.{imaged_lawful};
ghost use Rattle.std.proofs.Props.{props};

use super::buffer::{number32, number64, patch};
use super::opening;
use elements::kind::Kind;
use refusals::refusal::{Declined, Refusal};
use shapes::declaration::Declaration;
use shapes::table::Table;
use std::marker::PhantomData;
use stores::store::Store;

// The shapes of its variables, and a buffer that is laid out for them.
#[derive(Drop)]
pub struct Image<K: Kind> {
    table: Table,
    bytes: Vec<u8>,
    kind: PhantomData<K>,
    pub ghost laid: { Laid K.Kind.algebra (shapes_of table) bytes.items } by { Prim.hlevel props },
}

impl<K: Kind> Image<K> {
    // A store over this buffer, as it lies.
    pub fn open(declared: &[Declaration], bytes: Vec<u8>) -> Result<Image<K>, Declined<Vec<u8>>>
        ensures answer { opened (λ c. shapes_of c.table) result ≡ image_answer K.Kind.algebra declared.now bytes.items }
        ensures memory { held (λ c. c.bytes) result ≡ bytes }
    {
        // the buffer moves into one of two branches, so no closure can take it
        match check::<K>(declared, bytes.as_slice()) {
            Ok(table) => Ok(Image {
                table,
                bytes,
                kind: PhantomData,
            }),
            Err(refusal) => Err(Declined {
                refusal,
                value: bytes,
            }),
        }
    }

    // The buffer, given back.
    pub fn close(self) -> Vec<u8>
        ensures { result ≡ self.bytes }
    {
        let Image {
            table: _,
            bytes,
            kind: _,
        } = self;
        bytes
    }

    // Where the cell of a place begins.
    fn spot(&self, v: usize, index: &[u16]) -> Result<usize, Refusal>
        ensures { answered result ≡ spot_answer (shapes_of self.now.table) self.now.bytes.items v index.now }
    {
        let shape = self.table.shape(v)?;
        let n = shape.column(index).ok_or(Refusal::OutOfReach)?;
        Ok(number32(self.bytes.as_slice(), 8 * v - 4) + 8 * n)
    }
}

// The shapes of a buffer that is an image of these declarations.
fn check<K: Kind>(declared: &[Declaration], bytes: &[u8]) -> Result<Table, Refusal>
    ensures { answer shapes_of result ≡ image_answer K.Kind.algebra declared.now bytes.now }
{
    let table = Table::try_from(declared)?;
    if !opening::header::<K>(bytes, table.len()) {
        return Err(Refusal::BadHeader);
    }
    opening::check_pairs(bytes, &table)?;
    opening::check_codes::<K>(bytes, &table)?;
    Ok(table)
}

impl<K: Kind> Store for Image<K> {
    type Item = K;

    ghost meaning = { λ c. imaged K.Kind.algebra (shapes_of c.table) c.bytes.items };

    ghost lawful = { λ s. imaged_lawful K.Kind.algebra s.table s.bytes.items };

    fn table(&self) -> &Table {
        &self.table
    }

    fn rounded(&self, v: usize, d: usize) -> Result<u16, Refusal> {
        self.extent(v, d)
    }

    fn read(&self, v: usize, index: &[u16]) -> Result<K, Refusal> {
        let at = self.spot(v, index)?;
        let code = number64(self.bytes.as_slice(), at);
        Ok(K::decode(code).unwrap_or(K::zero()))
    }

    fn write(&mut self, v: usize, index: &[u16], x: K) -> Result<(), Refusal>
        ensures answer { answered result ≡ write_answer K.Kind.algebra (imaged K.Kind.algebra (shapes_of self.old.table) self.old.bytes.items) v index.now x }
        ensures same { is_ok result ≡ false → self.new ≡ self.old }
        ensures written { Written (is_ok result) (imaged K.Kind.algebra (shapes_of self.old.table) self.old.bytes.items) v index.now x (imaged K.Kind.algebra (shapes_of self.new.table) self.new.bytes.items) }
        ensures table { self.new.table ≡ self.old.table }
        ensures buffer { self.new.bytes.items ≡ (if is_ok result then patched (spot_of self.old.bytes.items (shapes_of self.old.table) v index.now) (bytes_of 8 (K.Kind.algebra.code x)) self.old.bytes.items else self.old.bytes.items) }
    {
        let at = self.spot(v, index)?;
        patch(self.bytes.as_mut_slice(), at, x.code());
        Ok(())
    }
}
