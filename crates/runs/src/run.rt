// A run of a checked sheet over a store, and the token that stands for a run that is open.
ghost use Rattle.std.specs.Prelude.{◌≡◌, ◌+◌, ◌≤◌, length};
ghost use Rattle.sheets.specs.Sheets.{contents};

use sheets::checked::CheckedSheet;
use stores::store::Store;

// Its own copy of the sheet, a store of its shapes, and the number of the next statement, from 1 to one past the last.
#[derive(Drop)]
pub struct Run<S: Store> {
    pub(crate) sheet: CheckedSheet,
    pub(crate) store: S,
    pub(crate) next: usize,
    ghost low: { 1 ≤ next },
    ghost high: { next ≤ length (contents sheet).statements + 1 },
    pub ghost fits: { (contents sheet).shapes ≡ (S.Store.meaning store).shapes },
}

// Handed out beside a run. It cannot be dropped, and only `close` takes it apart: a run that is open is never forgotten.
pub struct Token {
    pub(crate) seal: (),
}

// What `open` hands out.
pub struct Opened<S: Store> {
    pub run: Run<S>,
    pub token: Token,
}
