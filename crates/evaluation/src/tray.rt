// A statement worked out into a tray, a slice that the caller lends.
ghost use Rattle.std.specs.Prelude.{◌≡◌, ◌++◌, length, drop, if◌then◌else◌, Some, None};
ghost use Rattle.std.specs.Option.{option_map};
ghost use Rattle.indices.specs.Places.{has, pick, product};
ghost use Rattle.shapes.specs.Shapes.{extents_of};
ghost use Rattle.sheets.specs.Sheets.{contents};
ghost use Rattle.evaluation.specs.Tray.{target, roomy, worked, tray_answer, tray_after};

use super::site::Site;
use elements::kind::Kind;
use shapes::declaration::Declaration;
use shapes::shape::Shape;
use sheets::checked::CheckedSheet;
use stores::store::Store;

// The rounded extents of a variable, if there is one.
pub fn reach_of<S: Store>(s: &S, v: usize) -> Option<Shape>
    ensures { option_map extents_of result ≡ (if has (S.Store.meaning s.now).shapes v then Some (pick (S.Store.meaning s.now).reach v) else None) }
{
    let rank = s.rank(v).ok()?;
    let mut extents = [0u16; 4];
    for (d, extent) in extents[..rank].iter_mut().enumerate() {
        *extent = s.rounded(v, d + 1).ok()?;
    }
    let rank = rank as u16;
    Shape::try_from(&Declaration { rank, extents }).ok()
}

impl<K: Kind, S: Store<Item = K>> Site<'_, S> {
    // Statement n at every place in reach of its variable, the last coordinate running fastest; how many these are.
    // None, and nothing is done, where there is no statement n, or the tray is too short.
    fn fill(&self, n: usize, tray: &mut [K]) -> Option<usize>
        ensures answer { result ≡ (if roomy (S.Store.meaning self.now.store.now) (contents self.now.sheet.now) n (length tray.old) then Some (product (target (S.Store.meaning self.now.store.now) (contents self.now.sheet.now) n)) else None) }
        ensures tray { tray.new ≡ (if roomy (S.Store.meaning self.now.store.now) (contents self.now.sheet.now) n (length tray.old) then worked K.Kind.algebra (S.Store.meaning self.now.store.now) (contents self.now.sheet.now) n ++ drop (product (target (S.Store.meaning self.now.store.now) (contents self.now.sheet.now) n)) tray.old else tray.old) }
    {
        let statement = self.sheet.statement(n)?;
        let reach = reach_of(self.store, statement.variable as usize)?;
        let size = reach.size();
        if tray.len() < size {
            return None;
        }
        for (k, place) in tray[..size].iter_mut().enumerate() {
            *place = self.evaluate(statement.node, reach.index(k).unwrap());
        }
        Some(size)
    }
}

// Statement n of a sheet over a store, into the tray; how many values these are.
// None, and nothing is done, where the store has other shapes than the sheet, there is no statement n, or the tray is too short.
pub fn work_out<K: Kind, S: Store<Item = K>>(
    s: &S,
    sheet: &CheckedSheet,
    n: usize,
    tray: &mut [K],
) -> Option<usize>
    ensures answer { result ≡ tray_answer (S.Store.meaning s.now) (contents sheet.now) n (length tray.old) }
    ensures tray { tray.new ≡ tray_after K.Kind.algebra (S.Store.meaning s.now) (contents sheet.now) n tray.old }
{
    Site::of(s, sheet)?.fill(n, tray)
}
