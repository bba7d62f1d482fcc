// The value of a node at an index, and the law that no layout can matter to it.
ghost use Rattle.std.specs.Prelude.{◌≡◌};
ghost use Rattle.sheets.specs.Sheets.{contents};
ghost use Rattle.evaluation.specs.Law.{Law};
ghost use Rattle.evaluation.specs.Value.{value_answer};

use super::site::Site;
use elements::kind::Kind;
use indices::index::Index;
use sheets::checked::CheckedSheet;
use stores::store::Store;

// None where the store has other shapes than the sheet, the sheet has no node k, or the index is not in the node's reach.
pub fn value<K: Kind, S: Store<Item = K>>(
    s: &S,
    sheet: &CheckedSheet,
    k: u16,
    index: &[u16],
) -> Option<K>
    ensures value { result ≡ value_answer K.Kind.algebra (S.Store.meaning s.now) (contents sheet.now) k index.now }
    ensures law { Law K.Kind.algebra (S.Store.meaning s.now) }
{
    let site = Site::of(s, sheet)?;
    if !site.in_reach(k, index) {
        return None;
    }
    let at = Index::try_from(index).ok()?;
    Some(site.evaluate(k, at))
}
