// What every store means, and what each of its calls asks and promises.
ghost use Rattle.std.specs.Prelude.{◌≡◌, false, length, is_ok};
ghost use Rattle.refusals.specs.Refusals.{answered};
ghost use Rattle.shapes.specs.Shapes.{shapes_of, rank_answer, extent_answer};
ghost use Rattle.stores.specs.Meaning.{Meaning, Lawful, read_answer, write_answer, Written};

use elements::kind::Kind;
use refusals::refusal::Refusal;
use shapes::table::Table;

// Variables, dimensions and coordinates count from 1. Every store is lawful: what it needs of itself its type holds.
pub trait Store {
    type Item: Kind;

    ghost meaning: { Self → Meaning Self.Item };

    // The shapes of its variables.
    fn table(&self) -> &Table
        ensures { shapes_of result.now ≡ (meaning self.now).shapes };

    // How many variables there are.
    fn variables(&self) -> usize
        ensures { result ≡ length (meaning self.now).shapes }
    {
        self.table().len()
    }

    fn rank(&self, v: usize) -> Result<usize, Refusal>
        ensures { answered result ≡ rank_answer (meaning self.now).shapes v }
    {
        self.table().rank(v)
    }

    fn extent(&self, v: usize, d: usize) -> Result<u16, Refusal>
        ensures { answered result ≡ extent_answer (meaning self.now).shapes v d }
    {
        self.table().extent(v, d)
    }

    fn rounded(&self, v: usize, d: usize) -> Result<u16, Refusal>
        ensures { answered result ≡ extent_answer (meaning self.now).reach v d };

    // The element at a place in reach.
    fn read(&self, v: usize, index: &[u16]) -> Result<Self::Item, Refusal>
        ensures { answered result ≡ read_answer (meaning self.now) v index.now };

    // Sets one place in reach; a spare one takes only zero.
    fn write(&mut self, v: usize, index: &[u16], x: Self::Item) -> Result<(), Refusal>
        ensures answer { answered result ≡ write_answer Self.Item.Kind.algebra (meaning self.old) v index.now x }
        ensures same { is_ok result ≡ false → self.new ≡ self.old }
        ensures written { Written (is_ok result) (meaning self.old) v index.now x (meaning self.new) };

    ghost lawful: { (s : Self) → Lawful Self.Item.Kind.algebra.zero (meaning s) };
}
