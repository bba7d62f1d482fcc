// Multiplies two tables of metres over four layouts, and prints a row for each.

#![tactic(auto)]

use self::piles::{Entry, print_padded, print_pile};
use elements::metres::Metres;
use samples::layouts::{cells, image};
use samples::tables::{TABLES, WIDE};

mod piles;
mod plan;
mod product;

// A filler that would show in the product if it were left in a padded place.
const FILLER: i64 = 7;

fn entry(table: usize, row: u16, column: u16, value: i64) -> Entry<Metres> {
    Entry {
        table,
        index: [row, column],
        element: Metres::of(value),
    }
}

// A (2 3) = 1 2 3 4 5 6 and B (3 2) = 1 0 2 1 0 3, the last coordinate running fastest.
fn factors() -> [Entry<Metres>; 12] {
    [
        entry(1, 1, 1, 1),
        entry(1, 1, 2, 2),
        entry(1, 1, 3, 3),
        entry(1, 2, 1, 4),
        entry(1, 2, 2, 5),
        entry(1, 2, 3, 6),
        entry(2, 1, 1, 1),
        entry(2, 1, 2, 0),
        entry(2, 2, 1, 2),
        entry(2, 2, 2, 1),
        entry(2, 3, 1, 0),
        entry(2, 3, 2, 3),
    ]
}

fn print_piles(rt: &HostRuntime) -> anyhow::Result<()> {
    let (heap, filler) = (rt.alloc(), Metres::of(FILLER));
    let entries = factors();
    println!(rt; "pile c11 c12 c21 c22")?;
    print_pile(rt, "cells", &entries, &mut cells(heap, &TABLES, filler)?)?;
    print_pile(rt, "image", &entries, &mut image(heap, &TABLES, filler)?)?;
    print_padded(rt, "pad4-cells", &entries, cells(heap, &WIDE, filler)?)?;
    print_padded(rt, "pad4-image", &entries, image(heap, &WIDE, filler)?)
}

fn main(rt: HostRuntime) -> anyhow::Result<()> {
    print_piles(&rt)
}
