// What each form's rule makes of its operands, for node k.
ghost use Rattle.std.specs.Prelude.{◌≡◌, ◌≤◌, ◌++◌, Some};
ghost use Rattle.refusals.specs.Refusals.{answer};
ghost use Rattle.indices.specs.Coordinates.{coordinates};
ghost use Rattle.sheets.specs.Rules.{info_of, above, bounded_answer, pointwise as pointwise_of, turned as turned_of, contracted as contracted_of};

use super::judgement::Judgement;
use super::term::Operation;
use indices::index::Index;
use refusals::refusal::Refusal;

// The judgement on a node with these extents, depth and nesting, if they are within bounds.
pub(crate) fn bounded(
    extents: Index,
    depth: u16,
    nesting: u16,
    k: usize,
) -> Result<Judgement, Refusal>
    ensures { answer info_of result ≡ bounded_answer k (Some (record { extents = coordinates extents; depth = depth; nesting = nesting })) }
{
    if depth > 16 || nesting > 3 {
        return Err(Refusal::TooDeep(k));
    }
    Ok(Judgement {
        extents,
        depth,
        nesting,
    })
}

// A node with these extents over two operands.
fn over_two(x: Judgement, y: Judgement, extents: Index, k: usize) -> Result<Judgement, Refusal>
    ensures { answer info_of result ≡ bounded_answer k (Some (above (info_of x) (info_of y) (coordinates extents))) }
{
    bounded(
        extents,
        x.depth.max(y.depth) + 1,
        x.nesting.max(y.nesting),
        k,
    )
}

// The extents of the first operand, and then those of the second.
pub(crate) fn outer(x: Judgement, y: Judgement, k: usize) -> Result<Judgement, Refusal>
    ensures { answer info_of result ≡ bounded_answer k (Some (above (info_of x) (info_of y) (coordinates x.extents ++ coordinates y.extents))) }
{
    let extents = x.extents.joined(y.extents).ok_or(Refusal::TooDeep(k))?;
    over_two(x, y, extents, k)
}

// Element by element, of nodes of one type; but a product's first operand and a quotient's second may be a scalar.
pub(crate) fn pointwise(
    operation: Operation,
    x: Judgement,
    y: Judgement,
    k: usize,
) -> Result<Judgement, Refusal>
    ensures { answer info_of result ≡ bounded_answer k (pointwise_of operation (info_of x) (info_of y)) }
{
    let extents = match operation {
        Operation::Times if x.extents.as_slice().is_empty() => y.extents,
        Operation::Over if y.extents.as_slice().is_empty() => x.extents,
        _ if x.extents == y.extents => x.extents,
        _ => return Err(Refusal::NoType(k)),
    };
    over_two(x, y, extents, k)
}

// Dimensions m and n exchanged.
pub(crate) fn turned(x: Judgement, m: usize, n: usize, k: usize) -> Result<Judgement, Refusal>
    ensures { answer info_of result ≡ bounded_answer k (turned_of (info_of x) m n) }
{
    let extents = x.extents.exchanged(m, n).ok_or(Refusal::NoType(k))?;
    bounded(extents, x.depth + 1, x.nesting, k)
}

// Dimensions m and n contracted, which have one extent.
pub(crate) fn contracted(x: Judgement, m: usize, n: usize, k: usize) -> Result<Judgement, Refusal>
    ensures { answer info_of result ≡ bounded_answer k (contracted_of (info_of x) m n) }
{
    let extents = x.extents.without(m, n).ok_or(Refusal::NoType(k))?;
    if x.extents.entry(m) != x.extents.entry(n) {
        return Err(Refusal::NoType(k));
    }
    bounded(extents, x.depth + 1, x.nesting + 1, k)
}
