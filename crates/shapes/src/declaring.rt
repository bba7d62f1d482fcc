// How tables of shapes come of declarations.
ghost use Rattle.std.specs.Prelude.{◌≡◌, [], ◌∷◌, ◌++◌, length, if◌then◌else◌, is_ok, nat_lt};
ghost use Rattle.refusals.specs.Refusals.{answer, answered, done, refused};
ghost use Rattle.shapes.specs.Shapes.{extents_of, shapes_of, declared as declared_answer};

use super::declaration::Declaration;
use super::shape::Shape;
use super::table::Table;
use refusals::refusal::Refusal;

impl Table {
    pub fn empty() -> Table
        ensures { shapes_of result ≡ [] }
    {
        Table {
            len: 0,
            shapes: [Shape::scalar(); 16],
        }
    }

    // One shape more, unless the table is full.
    pub fn add(&mut self, shape: Shape) -> Result<(), Refusal>
        ensures answer { answered result ≡ (if nat_lt (length (shapes_of self.old)) 16 then done tt else refused 4 0) }
        ensures after { shapes_of self.new ≡ (if is_ok result then shapes_of self.old ++ extents_of shape ∷ [] else shapes_of self.old) }
    {
        let k = self.len;
        if k >= 16 {
            return Err(Refusal::TooManyDeclarations);
        }
        self.shapes[k] = shape;
        self.len = k + 1;
        Ok(())
    }
}

// The table of these declarations.
impl TryFrom<&[Declaration]> for Table {
    type Error = Refusal;

    ghost try_from_gives = { λ ds r. answer shapes_of r ≡ declared_answer ds.now };

    fn try_from(declared: &[Declaration]) -> Result<Table, Refusal> {
        if declared.len() > 16 {
            return Err(Refusal::TooManyDeclarations);
        }
        let mut table = Table::empty();
        for (k, declaration) in declared.iter().enumerate() {
            match Shape::try_from(declaration) {
                Ok(shape) => table.add(shape)?,
                Err(_) => return Err(Refusal::BadDeclaration(k + 1)),
            }
        }
        Ok(table)
    }
}
