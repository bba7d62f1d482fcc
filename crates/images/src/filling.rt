// A buffer that is an image, to start from.
ghost use Rattle.std.specs.Prelude.{◌≡◌, ◌+◌, ◌*◌, ◌++◌, length, IfOk};
ghost use Rattle.shapes.specs.Shapes.{shapes_of};
ghost use Rattle.images.specs.Filled.{filled as filled_with, repeated, pairs_for};

use elements::kind::Kind;
use shapes::table::Table;
use std::alloc::{AllocError, Global};

// An image of these shapes that holds one element everywhere: header, pairs, and one part after the other.
pub fn filled<K: Kind>(heap: Global, table: &Table, filler: K) -> Result<Vec<u8>, AllocError>
    ensures { IfOk result (λ v. v.items ≡ filled_with K.Kind.algebra (shapes_of table.now) filler) }
{
    let mut image = Vec::from_slice(heap, &[K::number(), table.len() as u8, 0, 0])?;
    push_pairs(&mut image, table)?;
    push_repeated(&mut image, table.total(), &filler.code().to_be_bytes())?;
    Ok(image)
}

// A pair for each shape: where its part begins, and how many bytes it has.
fn push_pairs(image: &mut Vec<u8>, table: &Table) -> Result<(), AllocError>
    ensures { IfOk result (λ _. image.new.items ≡ image.old.items ++ pairs_for (8 * length (shapes_of table.now) + 4) (shapes_of table.now)) }
{
    let mut offset = 8 * table.len() + 4;
    for shape in table.shapes() {
        let size = 8 * shape.size();
        image.extend_from_slice(&(offset as u32).to_be_bytes())?;
        image.extend_from_slice(&(size as u32).to_be_bytes())?;
        offset += size;
    }
    Ok(())
}

// The same bytes so many times.
fn push_repeated(image: &mut Vec<u8>, times: usize, part: &[u8]) -> Result<(), AllocError>
    ensures { IfOk result (λ _. image.new.items ≡ image.old.items ++ repeated times part.now) }
{
    for _ in 0..times {
        image.extend_from_slice(part)?;
    }
    Ok(())
}
