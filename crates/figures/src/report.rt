// What is expected of a kind of element, and what a store gives.
use super::tables::sheet;
use anyhow::anyhow;
use elements::kind::Kind;
use evaluation::tray::work_out;
use refusals::refusal::Refusal;
use std::alloc::Global;
use std::fmt;
use stores::store::Store;

// What A and B hold and what C and D get, the last coordinate running fastest, and what other places hold before.
#[derive(Drop)]
pub(super) struct Figures<K> {
    pub(super) kind: &'static str,
    pub(super) a: [K; 6],
    pub(super) b: [K; 6],
    pub(super) product: [K; 4],
    pub(super) trace: K,
    pub(super) filler: K,
}

// Puts A and B into a store, place by place: an array of a type parameter's elements is gone over by no loop here.
fn put<K: Kind, S: Store<Item = K>>(s: &mut S, a: [K; 6], b: [K; 6]) -> Result<(), Refusal> {
    s.write(1, &[1, 1], a[0])?;
    s.write(1, &[1, 2], a[1])?;
    s.write(1, &[1, 3], a[2])?;
    s.write(1, &[2, 1], a[3])?;
    s.write(1, &[2, 2], a[4])?;
    s.write(1, &[2, 3], a[5])?;
    s.write(2, &[1, 1], b[0])?;
    s.write(2, &[1, 2], b[1])?;
    s.write(2, &[2, 1], b[2])?;
    s.write(2, &[2, 2], b[3])?;
    s.write(2, &[3, 1], b[4])?;
    s.write(2, &[3, 2], b[5])
}

fn at<K: Kind>(tray: &[K], k: usize) -> anyhow::Result<K> {
    let Some(x) = tray.get(k) else {
        return Err(anyhow!("the tray is too short"));
    };
    Ok(*x)
}

// Statement n over a store, in a tray with one element more than 4 by 4 places.
fn worked<K: Kind, S: Store<Item = K>>(
    heap: Global,
    s: &S,
    n: usize,
    filler: K,
) -> anyhow::Result<(usize, Vec<K>)> {
    let mut tray = vec![in heap; filler; 17]?;
    let Some(places) = work_out(s, &sheet()?, n, tray.as_mut_slice()) else {
        return Err(anyhow!("the statement is not worked out"));
    };
    Ok((places, tray))
}

fn print_row<X: fmt::Display + Drop>(
    rt: &HostRuntime,
    kind: &str,
    figure: &str,
    layout: &str,
    expected: X,
    got: X,
) -> anyhow::Result<()> {
    println!(rt; "{kind}-{figure} {layout} {expected} {got}")?;
    Ok(())
}

// C from its tray, in which a row has so many places, how many places there are, and the element behind them.
// The figures are a parameter of their own: behind a reference in a struct, the arrays of K have no known size and get no proof.
fn print_product<K: Kind + fmt::Display, S: Store<Item = K>>(
    rt: &HostRuntime,
    figures: &Figures<K>,
    layout: &str,
    s: &S,
    row: u16,
) -> anyhow::Result<()> {
    let kind = figures.kind;
    let row = row as usize;
    let product = figures.product;
    let (places, held) = worked(rt.alloc(), s, 1, figures.filler)?;
    let tray = held.as_slice();
    print_row(rt, kind, "places", layout, row * row, places)?;
    print_row(rt, kind, "c11", layout, product[0], at(tray, 0)?)?;
    print_row(rt, kind, "c12", layout, product[1], at(tray, 1)?)?;
    print_row(rt, kind, "c21", layout, product[2], at(tray, row)?)?;
    print_row(rt, kind, "c22", layout, product[3], at(tray, row + 1)?)?;
    print_row(
        rt,
        kind,
        "behind",
        layout,
        figures.filler,
        at(tray, places)?,
    )
}

fn print_trace<K: Kind + fmt::Display, S: Store<Item = K>>(
    rt: &HostRuntime,
    figures: &Figures<K>,
    layout: &str,
    s: &S,
) -> anyhow::Result<()> {
    let (_, tray) = worked(rt.alloc(), s, 2, figures.filler)?;
    let got = at(tray.as_slice(), 0)?;
    print_row(rt, figures.kind, "d", layout, figures.trace, got)
}

// The figures of a store, in which a row of C has so many places.
pub(super) fn print_figures<K: Kind + fmt::Display, S: Store<Item = K>>(
    rt: &HostRuntime,
    figures: &Figures<K>,
    layout: &str,
    s: &mut S,
    row: u16,
) -> anyhow::Result<()> {
    put(s, figures.a, figures.b)?;
    print_product(rt, figures, layout, s, row)?;
    print_trace(rt, figures, layout, s)
}
