// Where an expression is worked out: a store, and a sheet with just its shapes.
ghost use Rattle.std.specs.Prelude.{◌≡◌};
ghost use Rattle.sheets.specs.Sheets.{contents};

use sheets::checked::CheckedSheet;
use stores::store::Store;

#[derive(Drop)]
pub(crate) struct Site<'a, S: Store> {
    pub(crate) store: &'a S,
    pub(crate) sheet: &'a CheckedSheet,
    ghost fits: { (contents sheet.now).shapes ≡ (S.Store.meaning store.now).shapes },
}
