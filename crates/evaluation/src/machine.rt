// The evaluation of a node at an index, as a loop over a stack of frames.
ghost use Rattle.std.specs.Prelude.{◌≡◌, true, ◌∷◌, length};
ghost use Rattle.indices.specs.Dimensions.{two_of, exchanged, inserted};
ghost use Rattle.indices.specs.Places.{within};
ghost use Rattle.indices.specs.Coordinates.{coordinates};
ghost use Rattle.sheets.specs.Rules.{info_at};
ghost use Rattle.sheets.specs.Sheets.{contents};
ghost use Rattle.sheets.specs.Terms.{node_there, UnfoldsTo};
ghost use Rattle.evaluation.specs.Machine.{setting, stack_of, extendable, Room, Resumed, Sound, Stepped, Turned};
ghost use Rattle.evaluation.specs.Value.{seen as seen_at, node_reach, node_value};

use super::coded::{combined, value_of, zero_code};
use super::frame::{Focus, Frame, Stack};
use super::site::Site;
use elements::kind::Kind;
use indices::index::Index;
use sheets::term::{Operation, Term};
use std::ops::ControlFlow;
use stores::store::Store;

// On with the value that a frame waited for.
fn resume<K: Kind>(stack: &mut Stack, frame: Frame, code: u64) -> Focus
    requires { Room frame (stack_of stack.old) }
    ensures { Resumed K.Kind.algebra (stack_of stack.old) code (stack_of stack.new) frame result }
{
    // frames are data: as boxed closures they would need the heap
    match frame {
        Frame::Left {
            operation,
            right,
            at,
        } => {
            stack.push(Frame::Right {
                operation,
                left: code,
            });
            Focus::Down { node: right, at }
        }
        Frame::Right { operation, left } => Focus::Up {
            code: combined::<K>(operation, left, code),
        },
        Frame::Sum {
            node,
            at,
            m,
            n,
            l,
            limit,
            sum,
        } => {
            let total = combined::<K>(Operation::Plus, sum, code);
            if l >= limit {
                return Focus::Up { code: total };
            }
            let next = at.extended(m as usize, n as usize, l + 1).unwrap();
            stack.push(Frame::Sum {
                node,
                at,
                m,
                n,
                l: l + 1,
                limit,
                sum: total,
            });
            Focus::Down { node, at: next }
        }
    }
}

impl<K: Kind, S: Store<Item = K>> Site<'_, S> {
    // Where an operand is taken: a scalar at the empty index.
    fn seen(&self, node: u16, at: Index) -> Index
        ensures { coordinates result ≡ seen_at (info_at (contents self.now.sheet.now).infos node).extents (coordinates at) }
    {
        if self.sheet.rank(node) == 0 {
            Index::empty()
        } else {
            at
        }
    }

    // Down into a node that is made of `term`.
    fn enter(&self, stack: &mut Stack, node: u16, at: Index, term: Term) -> Focus
        requires sound { Sound (setting K.Kind.algebra (S.Store.meaning self.now.store.now) (contents self.now.sheet.now)) (stack_of stack.old) (Focus.Down node at) }
        requires unfolds { UnfoldsTo (contents self.now.sheet.now) node term }
        ensures { Stepped (setting K.Kind.algebra (S.Store.meaning self.now.store.now) (contents self.now.sheet.now)) (stack_of stack.old) (Focus.Down node at) (stack_of stack.new) result }
    {
        match term {
            Term::Variable { variable } => Focus::Up {
                code: self.fetch(variable, at),
            },
            Term::Outer { a, b } => {
                let rank = self.sheet.rank(a);
                stack.push(Frame::Left {
                    operation: Operation::Times,
                    right: b,
                    at: at.rest(rank),
                });
                Focus::Down {
                    node: a,
                    at: at.first(rank),
                }
            }
            Term::Pointwise { operation, a, b } => {
                stack.push(Frame::Left {
                    operation,
                    right: b,
                    at: self.seen(b, at),
                });
                Focus::Down {
                    node: a,
                    at: self.seen(a, at),
                }
            }
            Term::Turned { a, m, n } => Focus::Down {
                node: a,
                at: at.exchanged(m as usize, n as usize).unwrap(),
            },
            Term::Contracted { a, m, n } => {
                stack.push(Frame::Sum {
                    node: a,
                    at,
                    m,
                    n,
                    l: 1,
                    limit: self.rounded_of(a, m as usize),
                    sum: zero_code::<K>(),
                });
                Focus::Down {
                    node: a,
                    at: at.extended(m as usize, n as usize, 1).unwrap(),
                }
            }
        }
    }

    // One turn: down into a node, or on with a value. It ends with the code of a value that no frame waits for.
    fn turn(&self, stack: &mut Stack, focus: Focus) -> ControlFlow<u64, Focus>
        requires { Sound (setting K.Kind.algebra (S.Store.meaning self.now.store.now) (contents self.now.sheet.now)) (stack_of stack.old) focus }
        ensures { Turned (setting K.Kind.algebra (S.Store.meaning self.now.store.now) (contents self.now.sheet.now)) (stack_of stack.old) focus (stack_of stack.new) result }
    {
        match focus {
            Focus::Down { node, at } => {
                let term = self.sheet.term(node).unwrap();
                ControlFlow::Continue(self.enter(stack, node, at, term))
            }
            Focus::Up { code } => match stack.pop() {
                Some(frame) => ControlFlow::Continue(resume::<K>(stack, frame, code)),
                None => ControlFlow::Break(code),
            },
        }
    }

    // The value of a node at an index in reach.
    pub(crate) fn evaluate(&self, node: u16, at: Index) -> K
        requires there { node_there (contents self.now.sheet.now) node ≡ true }
        requires reached { within (node_reach (S.Store.meaning self.now.store.now) (contents self.now.sheet.now) node) (coordinates at) ≡ true }
        ensures { result ≡ node_value K.Kind.algebra (S.Store.meaning self.now.store.now) (contents self.now.sheet.now) node (coordinates at) }
    {
        let mut stack = Stack::new();
        let mut focus = Focus::Down { node, at };
        loop {
            match self.turn(&mut stack, focus) {
                ControlFlow::Continue(next) => focus = next,
                ControlFlow::Break(code) => return value_of(code),
            }
        }
    }
}
