// One list of calls, passed to two runs of one sheet over two stores.
ghost use Rattle.std.specs.Prelude.{◌≡◌, length, IfOk, MatchResult};
ghost use Rattle.refusals.specs.Refusals.{opened, and_then};
ghost use Rattle.sheets.specs.Sheets.{contents};
ghost use Rattle.runs.specs.Agreement.{Moves, Chain, Agreement};
ghost use Rattle.runs.specs.Lists.{call_of, reply_of, calls_of, lefts_of, rights_of};
ghost use Rattle.runs.specs.Opening.{open_answer};

use super::calls::{fetch, put, rewind, step};
use super::list::{Call, Entry, Outcome, Pair, Reply};
use super::opening::{close, open};
use super::run::{Opened, Run};
use elements::kind::Kind;
use refusals::refusal::Declined;
use sheets::checked::CheckedSheet;
use stores::store::Store;

// One call. A step has as much of the tray as it asks for.
fn perform<K: Kind, S: Store<Item = K>>(run: &mut Run<S>, call: Call<K>, tray: &mut [K]) -> Reply<K>
    ensures sheet { run.new.sheet ≡ run.old.sheet }
    ensures moves { Moves K.Kind.algebra (contents run.old.sheet) (call_of (length tray.old) call) (record { meaning = S.Store.meaning run.old.store; next = run.old.next }) (reply_of result) (record { meaning = S.Store.meaning run.new.store; next = run.new.next }) }
{
    // a match: the list of calls is data
    match call {
        Call::Fetch { variable, index } => {
            let x = fetch(run, variable, index.as_slice())?;
            Ok(Outcome::Element(x))
        }
        Call::Put {
            variable,
            index,
            element,
        } => {
            put(run, variable, index.as_slice(), element)?;
            Ok(Outcome::Done)
        }
        Call::Step { size } => {
            let n = size.min(tray.len());
            let done = step(run, &mut tray[..n])?;
            Ok(Outcome::Statement(done))
        }
        Call::Rewind => {
            rewind(run);
            Ok(Outcome::Done)
        }
    }
}

// Every call of the list, to both runs.
fn pass<K: Kind, S: Store<Item = K>, T: Store<Item = K>>(
    one: &mut Run<S>,
    two: &mut Run<T>,
    entries: &mut [Entry<K>],
    tray: &mut [K],
)
    ensures calls { calls_of (length tray.old) entries.new ≡ calls_of (length tray.old) entries.old }
    ensures left { Chain K.Kind.algebra (contents one.old.sheet) (record { meaning = S.Store.meaning one.old.store; next = one.old.next }) (calls_of (length tray.old) entries.old) (lefts_of entries.new) (record { meaning = S.Store.meaning one.new.store; next = one.new.next }) }
    ensures right { Chain K.Kind.algebra (contents two.old.sheet) (record { meaning = T.Store.meaning two.old.store; next = two.old.next }) (calls_of (length tray.old) entries.old) (rights_of entries.new) (record { meaning = T.Store.meaning two.new.store; next = two.new.next }) }
{
    for entry in entries.iter_mut() {
        let call = entry.call;
        let left = perform(one, call, tray);
        let right = perform(two, call, tray);
        *entry = Entry { call, left, right };
    }
}

// Opens a run over each store, passes the list to both, enters what they reply, closes both and gives the stores back.
// The tray is scratch: each step has as many of its elements as it asks for.
pub fn agree<K: Kind, S: Store<Item = K>, T: Store<Item = K>>(
    sheet: &CheckedSheet,
    left: S,
    right: T,
    entries: &mut [Entry<K>],
    tray: &mut [K],
) -> Result<Pair<S, T>, Declined<Pair<S, T>>>
    ensures answer { opened (λ _. tt) result ≡ and_then (open_answer (contents sheet.now) (S.Store.meaning left).shapes) (λ _. open_answer (contents sheet.now) (T.Store.meaning right).shapes) }
    ensures kept { MatchResult result (λ p. calls_of (length tray.old) entries.new ≡ calls_of (length tray.old) entries.old) (λ d. (d.value.left ≡ left) × (d.value.right ≡ right) × (entries.new ≡ entries.old)) }
    ensures agreement { IfOk result (λ p. Agreement K.Kind.algebra (contents sheet.now) (S.Store.meaning left) (T.Store.meaning right) (calls_of (length tray.old) entries.old) (lefts_of entries.new) (rights_of entries.new) (S.Store.meaning p.left) (T.Store.meaning p.right)) }
{
    match open(sheet, left) {
        Err(declined) => Err(Declined {
            refusal: declined.refusal,
            value: Pair {
                left: declined.value,
                right,
            },
        }),
        Ok(first) => {
            let Opened {
                run: mut one,
                token,
            } = first;
            match open(sheet, right) {
                Err(declined) => Err(Declined {
                    refusal: declined.refusal,
                    value: Pair {
                        left: close(one, token),
                        right: declined.value,
                    },
                }),
                Ok(second) => {
                    let Opened {
                        run: mut two,
                        token: other,
                    } = second;
                    pass(&mut one, &mut two, entries, tray);
                    Ok(Pair {
                        left: close(one, token),
                        right: close(two, other),
                    })
                }
            }
        }
    }
}
