// Whether a store has just the shapes of a sheet.
ghost use Rattle.std.specs.Prelude.{◌≡◌, is_some, IfSome};
ghost use Rattle.sheets.specs.Sheets.{contents};
ghost use Rattle.evaluation.specs.Value.{fits as fits_of};

use super::site::Site;
use sheets::checked::CheckedSheet;
use stores::matching::difference;
use stores::store::Store;

impl<'a, S: Store> Site<'a, S> {
    // The two together, if the store has just the shapes of the sheet.
    pub(crate) fn of(store: &'a S, sheet: &'a CheckedSheet) -> Option<Site<'a, S>>
        ensures value { is_some result ≡ fits_of (S.Store.meaning store.now) (contents sheet.now) }
        ensures parts { IfSome result (λ t. (t.store.now ≡ store.now) × (t.sheet.now ≡ sheet.now)) }
    {
        difference(&sheet.table(), store).ok()?;
        Some(Site { store, sheet })
    }
}
