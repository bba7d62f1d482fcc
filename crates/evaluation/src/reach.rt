// How far a node's dimensions go over a store: each comes from a dimension of some variable, and is followed down to it.
ghost use Rattle.std.specs.Prelude.{◌≡◌, ◌≤◌, true, ◌&&◌, length};
ghost use Rattle.indices.specs.Places.{at1, within};
ghost use Rattle.sheets.specs.Sheets.{contents};
ghost use Rattle.sheets.specs.Terms.{node_there, UnfoldsTo};
ghost use Rattle.evaluation.specs.Sources.{Traced};
ghost use Rattle.evaluation.specs.Value.{node_reach};

use super::site::Site;
use elements::kind::Kind;
use sheets::checked::CheckedSheet;
use sheets::term::{Operation, Term};
use stores::store::Store;

// Where a dimension of a node comes from: a dimension of a variable, or one of an operand.
// Named, and no ControlFlow, where both would be a bare pair of numbers.
#[derive(Clone, Copy)]
pub(crate) enum Source {
    Variable { variable: u16, d: usize },
    Operand { node: u16, d: usize },
}

// One step down, at node k, which is made of `term`.
fn step_down(sheet: &CheckedSheet, k: u16, term: Term, d: usize) -> Source
    requires there { node_there (contents sheet.now) k ≡ true }
    requires unfolds { UnfoldsTo (contents sheet.now) k term }
    requires small { d ≤ 64 }
    ensures { Traced (contents sheet.now) k d result }
{
    match term {
        Term::Variable { variable } => Source::Variable { variable, d },
        Term::Outer { a, b } => {
            let rank = sheet.rank(a);
            if d <= rank {
                Source::Operand { node: a, d }
            } else {
                Source::Operand {
                    node: b,
                    d: d - rank,
                }
            }
        }
        Term::Pointwise { operation, a, b } => match operation {
            Operation::Times => Source::Operand { node: b, d },
            _ => Source::Operand { node: a, d },
        },
        Term::Turned { a, m, n } => {
            let (m, n) = (m as usize, n as usize);
            let from = if d == m {
                n
            } else if d == n {
                m
            } else {
                d
            };
            Source::Operand { node: a, d: from }
        }
        Term::Contracted { a, m, n } => {
            let from = if d < m as usize {
                d
            } else if d + 1 < n as usize {
                d + 1
            } else {
                d + 2
            };
            Source::Operand { node: a, d: from }
        }
    }
}

// Where dimension d of node k comes from.
fn trace(sheet: &CheckedSheet, k: u16, d: usize) -> Source
    requires there { node_there (contents sheet.now) k ≡ true }
    requires small { d ≤ 64 }
    ensures { Traced (contents sheet.now) k d result }
{
    match sheet.term(k) {
        Some(term) => step_down(sheet, k, term, d),
        None => Source::Operand { node: k, d },
    }
}

impl<K: Kind, S: Store<Item = K>> Site<'_, S> {
    // How far dimension d of a node goes.
    pub(crate) fn rounded_of(&self, node: u16, d: usize) -> u16
        requires there { node_there (contents self.now.sheet.now) node ≡ true }
        requires low { 1 ≤ d }
        requires high { d ≤ length (node_reach (S.Store.meaning self.now.store.now) (contents self.now.sheet.now) node) }
        ensures { result ≡ at1 (node_reach (S.Store.meaning self.now.store.now) (contents self.now.sheet.now) node) d }
    {
        let mut k = node;
        let mut e = d;
        loop {
            match trace(self.sheet, k, e) {
                Source::Variable { variable, d } => {
                    return self.store.rounded(variable as usize, d).unwrap();
                }
                Source::Operand { node, d } => {
                    k = node;
                    e = d;
                }
            }
        }
    }

    // Whether there is such a node, and it has a place at this index.
    pub(crate) fn in_reach(&self, k: u16, index: &[u16]) -> bool
        ensures { result ≡ (node_there (contents self.now.sheet.now) k && within (node_reach (S.Store.meaning self.now.store.now) (contents self.now.sheet.now) k) index.now) }
    {
        if self.sheet.term(k).is_none() {
            return false;
        }
        if index.len() != self.sheet.rank(k) {
            return false;
        }
        for (d, &coordinate) in index.iter().enumerate() {
            if coordinate < 1 || coordinate > self.rounded_of(k, d + 1) {
                return false;
            }
        }
        true
    }
}
