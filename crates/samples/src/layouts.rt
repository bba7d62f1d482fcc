// Stores that hold one element everywhere.
ghost use Rattle.std.specs.Prelude.{◌≡◌, replicate, IfOk, IfErr};
ghost use Rattle.indices.specs.Places.{total};
ghost use Rattle.refusals.specs.Refusals.{done, and_then};
ghost use Rattle.shapes.specs.Shapes.{shapes_of, declared as declared_answer};
ghost use Rattle.images.specs.Image.{image_answer};
ghost use Rattle.images.specs.Filled.{filled as filled_with};
ghost use Rattle.samples.specs.declared.layouts.NotMade.TheVariants.{Refused, OutOfMemory};
ghost use Rattle.samples.specs.Refusing.{Refuses};

use elements::kind::Kind;
use images::filling::filled;
use images::image::Image;
use refusals::refusal::Refusal;
use shapes::declaration::Declaration;
use shapes::table::Table;
use std::alloc::{AllocError, Global};
use std::error::Error;
use std::fmt;
use stores::cells::Cells;

// Why a store could not be made.
#[derive(Debug, Drop)]
pub enum NotMade {
    Refused(Refusal),
    OutOfMemory,
}

impl fmt::Display for NotMade {
    fn fmt<W: fmt::Write>(&self, f: &mut fmt::Formatter<W>) -> fmt::Result {
        match self {
            NotMade::Refused(refusal) => write!(f, "{refusal}"),
            NotMade::OutOfMemory => write!(f, "memory allocation failed"),
        }
    }
}

impl Error for NotMade {}

impl From<Refusal> for NotMade {
    ghost from_gives = { λ r e. e ≡ Refused r };

    fn from(refusal: Refusal) -> NotMade {
        NotMade::Refused(refusal)
    }
}

impl From<AllocError> for NotMade {
    ghost from_gives = { λ _ e. e ≡ OutOfMemory };

    fn from(_failed: AllocError) -> NotMade {
        NotMade::OutOfMemory
    }
}

// Cells of these tables with one element in every place.
pub fn cells<K: Kind>(
    heap: Global,
    declared: &[Declaration],
    filler: K,
) -> Result<Cells<K>, NotMade>
    ensures refuses { IfErr result (λ e. Refuses e (declared_answer declared.now)) }
    ensures made { IfOk result (λ c. (done (shapes_of c.table) ≡ declared_answer declared.now) × (c.elements.items ≡ replicate (total (shapes_of c.table)) filler)) }
{
    let table = Table::try_from(declared)?;
    let elements = repeated(heap, filler, table.total())?;
    Cells::open(declared, elements).map_err(|declined| NotMade::Refused(declined.refusal))
}

// So many times the same element: pushed one by one, since a clone, as by `vec!`, is not known to be the same element of every kind.
fn repeated<K: Kind>(heap: Global, filler: K, times: usize) -> Result<Vec<K>, AllocError>
    ensures { IfOk result (λ v. v.items ≡ replicate times filler) }
{
    let mut elements = Vec::new(heap);
    for _ in 0..times {
        elements.push(filler)?;
    }
    Ok(elements)
}

// An image of these tables with one element in every place.
pub fn image<K: Kind>(
    heap: Global,
    declared: &[Declaration],
    filler: K,
) -> Result<Image<K>, NotMade>
    ensures refuses { IfErr result (λ e. Refuses e (and_then (declared_answer declared.now) (λ ss. image_answer K.Kind.algebra declared.now (filled_with K.Kind.algebra ss filler)))) }
    ensures made { IfOk result (λ c. (done (shapes_of c.table) ≡ declared_answer declared.now) × (c.bytes.items ≡ filled_with K.Kind.algebra (shapes_of c.table) filler)) }
{
    let table = Table::try_from(declared)?;
    let bytes = filled(heap, &table, filler)?;
    Image::open(declared, bytes).map_err(|declined| NotMade::Refused(declined.refusal))
}
