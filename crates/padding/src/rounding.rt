// Extents and shapes, rounded up to a multiple of a vector length.
ghost use Rattle.std.specs.Prelude.{◌≡◌, ◌≤◌, if◌then◌else◌, Some, None};
ghost use Rattle.std.specs.Option.{option_map};
ghost use Rattle.indices.specs.Places.{proper};
ghost use Rattle.refusals.specs.Refusals.{answer};
ghost use Rattle.shapes.specs.Shapes.{extents_of, shapes_of};
ghost use Rattle.padding.specs.Rounding.{round, LeastMultiple, rounded, rounding};

use super::vector_length::VectorLength;
use refusals::refusal::Refusal;
use shapes::declaration::Declaration;
use shapes::shape::Shape;
use shapes::table::Table;

impl VectorLength {
    // An extent rounded up to the least multiple.
    fn round(self, extent: u16) -> u16
        requires { extent ≤ 64 }
        ensures value { result ≡ round self.count extent }
        ensures least { LeastMultiple self.count extent result }
    {
        extent.next_multiple_of(self.count)
    }

    // The shape with every extent rounded up, if that is a shape. Extents fill an array: a declaration has one, of fixed size.
    fn round_shape(self, shape: &Shape) -> Option<Shape>
        ensures { option_map extents_of result ≡ (if proper (rounded self.count (extents_of shape.now)) then Some (rounded self.count (extents_of shape.now)) else None) }
    {
        let es = shape.extents();
        let mut extents = [0u16; 4];
        for (d, e) in es.iter().enumerate() {
            extents[d] = self.round(*e);
        }
        let rank = es.len() as u16;
        Shape::try_from(&Declaration { rank, extents }).ok()
    }

    // The table with every shape rounded up.
    pub(super) fn round_table(self, table: &Table) -> Result<Table, Refusal>
        ensures { answer shapes_of result ≡ rounding self.count (shapes_of table.now) }
    {
        let mut wide = Table::empty();
        for (k, shape) in table.shapes().iter().enumerate() {
            let Some(rounded) = self.round_shape(shape) else {
                return Err(Refusal::TooWide(k + 1));
            };
            wide.add(rounded)?;
        }
        Ok(wide)
    }
}
