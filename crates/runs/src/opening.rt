// How a run begins and ends.
ghost use Rattle.std.specs.Prelude.{◌≡◌, MatchResult};
ghost use Rattle.refusals.specs.Refusals.{opened};
ghost use Rattle.sheets.specs.Sheets.{contents};
ghost use Rattle.runs.specs.Opening.{open_answer, Begins};

use super::run::{Opened, Run, Token};
use refusals::refusal::{Declined, Refusal};
use sheets::checked::CheckedSheet;
use stores::matching::difference;
use stores::mismatch::Mismatch;
use stores::store::Store;

// A run at statement 1, if the store has just the declared shapes. The sheet is copied, and no element is touched.
#[inline]
pub fn open<S: Store>(sheet: &CheckedSheet, store: S) -> Result<Opened<S>, Declined<S>>
    ensures answer { opened (λ _. tt) result ≡ open_answer (contents sheet.now) (S.Store.meaning store).shapes }
    ensures begins { MatchResult result (λ o. Begins (contents sheet.now) (contents o.run.sheet) o.run.next × (o.run.store ≡ store)) (λ d. d.value ≡ store) }
{
    let table = sheet.table();
    // the store moves into one of the branches, so no closure can take it
    match difference(&table, &store) {
        Ok(()) => Ok(Opened {
            run: Run {
                sheet: *sheet,
                store,
                next: 1,
            },
            token: Token { seal: () },
        }),
        Err(Mismatch::Count) => Err(Declined {
            refusal: Refusal::OtherCountDeclared,
            value: store,
        }),
        Err(Mismatch::Shape(k)) => Err(Declined {
            refusal: Refusal::OtherShapeDeclared(k),
            value: store,
        }),
    }
}

// The store of a run that ends; no element is touched.
pub fn close<S: Store>(run: Run<S>, token: Token) -> S
    ensures { result ≡ run.store }
{
    let Token { seal: () } = token;
    run.store
}
