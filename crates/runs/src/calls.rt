// The calls of a run.
ghost use Rattle.std.specs.Prelude.{◌≡◌, false, cond, ◌++◌, length, is_ok, if◌then◌else◌};
ghost use Rattle.evaluation.specs.Tray.{worked, target};
ghost use Rattle.indices.specs.Places.{product};
ghost use Rattle.refusals.specs.Refusals.{answered, done, refused};
ghost use Rattle.sheets.specs.Sheets.{contents};
ghost use Rattle.runs.specs.Agreement.{Moved};
ghost use Rattle.runs.specs.Calls.{tray_after};
ghost use Rattle.runs.specs.Plain.{in_sheet, fetch_answer, put_answer, step_answer, after, put as put_call, step as step_call, rewind as rewind_call};

use super::run::Run;
use super::writing::write_all;
use elements::kind::Kind;
use evaluation::tray::{reach_of, work_out};
use refusals::refusal::Refusal;
use sheets::checked::CheckedSheet;
use stores::store::Store;

// Whether a place is in shape, by the sheet.
fn in_shape(sheet: &CheckedSheet, v: usize, index: &[u16]) -> Result<(), Refusal>
    ensures { answered result ≡ (if in_sheet (contents sheet.now) v index.now then done tt else refused 20 0) }
{
    let table = sheet.table();
    if !table.contains(v, index) {
        return Err(Refusal::OutOfShape);
    }
    Ok(())
}

// The element at a place in shape.
pub fn fetch<K: Kind, S: Store<Item = K>>(
    run: &Run<S>,
    v: usize,
    index: &[u16],
) -> Result<K, Refusal>
    ensures { answered result ≡ fetch_answer (contents run.now.sheet) (record { at = (S.Store.meaning run.now.store).at; next = run.now.next }) v index.now }
{
    in_shape(&run.sheet, v, index)?;
    run.store.read(v, index)
}

// Sets the element at a place in shape.
pub fn put<K: Kind, S: Store<Item = K>>(
    run: &mut Run<S>,
    v: usize,
    index: &[u16],
    x: K,
) -> Result<(), Refusal>
    ensures answer { answered result ≡ put_answer (contents run.old.sheet) v index.now }
    ensures sheet { run.new.sheet ≡ run.old.sheet }
    ensures moved { Moved (S.Store.meaning run.old.store) (after K.Kind.algebra (contents run.old.sheet) (S.Store.meaning run.old.store).reach (record { at = (S.Store.meaning run.old.store).at; next = run.old.next }) (put_call v index.now x)) (S.Store.meaning run.new.store) run.new.next }
    ensures same { is_ok result ≡ false → (run.new.store ≡ run.old.store) × (run.new.next ≡ run.old.next) }
{
    in_shape(&run.sheet, v, index)?;
    run.store.write(v, index, x)
}

// Works out the next statement at every place in reach of its variable into the tray, and only then writes all of them.
pub fn step<K: Kind, S: Store<Item = K>>(run: &mut Run<S>, tray: &mut [K]) -> Result<usize, Refusal>
    ensures answer { answered result ≡ step_answer (contents run.old.sheet) run.old.next (length tray.old) }
    ensures sheet { run.new.sheet ≡ run.old.sheet }
    ensures moved { Moved (S.Store.meaning run.old.store) (after K.Kind.algebra (contents run.old.sheet) (S.Store.meaning run.old.store).reach (record { at = (S.Store.meaning run.old.store).at; next = run.old.next }) (step_call (length tray.old))) (S.Store.meaning run.new.store) run.new.next }
    ensures same { is_ok result ≡ false → (run.new.store ≡ run.old.store) × (run.new.next ≡ run.old.next) }
    ensures tray { tray.new ≡ tray_after K.Kind.algebra (S.Store.meaning run.old.store) (contents run.old.sheet) run.old.next tray.old }
{
    if tray.len() < 4096 {
        return Err(Refusal::ShortTray);
    }
    let n = run.next;
    let Some(statement) = run.sheet.statement(n) else {
        return Err(Refusal::NoStatementLeft);
    };
    let v = statement.variable as usize;
    let Some(reach) = reach_of(&run.store, v) else {
        return Err(Refusal::ValueNotTaken);
    };
    let Some(_) = work_out(&run.store, &run.sheet, n, tray) else {
        return Err(Refusal::ValueNotTaken);
    };
    write_all(&mut run.store, v, &reach, tray).map_err(|_| Refusal::ValueNotTaken)?;
    run.next = n + 1;
    Ok(n)
}

// Back to statement 1; no element is touched.
pub fn rewind<S: Store>(run: &mut Run<S>)
    ensures first { run.new.next ≡ 1 }
    ensures store { run.new.store ≡ run.old.store }
    ensures sheet { run.new.sheet ≡ run.old.sheet }
{
    run.next = 1;
}
