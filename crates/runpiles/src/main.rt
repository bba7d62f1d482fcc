// Multiplies two tables of metres by runs over four layouts, and prints a row for each.

#![tactic(auto)]

use self::printing::print_rows;
use self::product::{calls, sheet};
use elements::metres::Metres;
use padding::layer::{self, Padding};
use runs::agreement::agree;
use samples::layouts::{cells, image};
use samples::tables::{TABLES, WIDE};
use sheets::checked::CheckedSheet;
use stores::store::Store;

mod printing;
mod product;

// A filler that would show in the product if it were left in a padded place.
const FILLER: i64 = 7;

// Padding with vector length 4 on top of a store.
fn padded<S: Store + Drop>(below: S) -> anyhow::Result<Padding<S>> {
    let padding = layer::open(&TABLES, 4, below).map_err(|declined| declined.refusal)?;
    Ok(padding)
}

// The rows of two runs, one over each store.
fn print_both<S: Store<Item = Metres> + Drop, T: Store<Item = Metres> + Drop>(
    rt: &HostRuntime,
    sheet: &CheckedSheet,
    names: [&str; 2],
    left: S,
    right: T,
) -> anyhow::Result<()> {
    let mut entries = calls();
    let mut tray = vec![in rt.alloc(); Metres::of(0); 4096]?;
    match agree(sheet, left, right, &mut entries, tray.as_mut_slice()) {
        Ok(_) => print_rows(rt, names, entries),
        Err(declined) => Err(declined.refusal.into()),
    }
}

fn print_piles(rt: &HostRuntime) -> anyhow::Result<()> {
    let (heap, filler) = (rt.alloc(), Metres::of(FILLER));
    println!(rt; "pile c11 c12 c21 c22")?;
    let sheet = sheet()?;
    let left = cells(heap, &TABLES, filler)?;
    let right = image(heap, &TABLES, filler)?;
    print_both(rt, &sheet, ["cells", "image"], left, right)?;
    let left = padded(cells(heap, &WIDE, filler)?)?;
    let right = padded(image(heap, &WIDE, filler)?)?;
    print_both(rt, &sheet, ["pad4-cells", "pad4-image"], left, right)
}

fn main(rt: HostRuntime) -> anyhow::Result<()> {
    print_piles(&rt)
}
