// Stores that hold the tables A (2 3), B (3 2) and C (2 2), and what is printed of them.
use super::product;
use anyhow::anyhow;
use elements::kind::Kind;
use padding::layer;
use refusals::refusal::Refusal;
use samples::tables::TABLES;
use std::fmt;
use stores::store::Store;

// An element of A or B, and where it stands.
#[derive(Clone, Copy)]
pub(super) struct Entry<K> {
    pub(super) table: usize,
    pub(super) index: [u16; 2],
    pub(super) element: K,
}

// Puts the elements of A and B into a store.
fn put<K: Kind, S: Store<Item = K>>(s: &mut S, entries: &[Entry<K>]) -> Result<(), Refusal> {
    for entry in entries {
        s.write(entry.table, &entry.index, entry.element)?;
    }
    Ok(())
}

// Works out C from A and B in a store, and prints it.
pub(super) fn print_pile<K: Kind + fmt::Display, S: Store<Item = K>>(
    rt: &HostRuntime,
    name: &str,
    entries: &[Entry<K>],
    s: &mut S,
) -> anyhow::Result<()> {
    put(s, entries)?;
    let Some(t) = product::plan(s, 1, 2, 3) else {
        return Err(anyhow!("the tables do not fit each other"));
    };
    product::multiply(s, t)?;
    let c11 = s.read(3, &[1, 1])?;
    let c12 = s.read(3, &[1, 2])?;
    let c21 = s.read(3, &[2, 1])?;
    let c22 = s.read(3, &[2, 2])?;
    println!(rt; "{name} {c11} {c12} {c21} {c22}")?;
    Ok(())
}

// The same over padding with vector length 4 on top of a store.
pub(super) fn print_padded<K: Kind + fmt::Display, S: Store<Item = K> + Drop>(
    rt: &HostRuntime,
    name: &str,
    entries: &[Entry<K>],
    below: S,
) -> anyhow::Result<()> {
    let mut padding = layer::open(&TABLES, 4, below).map_err(|declined| declined.refusal)?;
    print_pile(rt, name, entries, &mut padding)
}
