// What is printed of two runs, from their replies to the calls.
ghost use Rattle.std.specs.Prelude.{◌≡◌, IfOk};

use anyhow::anyhow;
use elements::kind::Kind;
use elements::metres::Metres;
use runs::list::{Entry, Outcome, Reply};

// The element that a fetch was answered with.
fn fetched<K: Kind>(reply: Reply<K>) -> anyhow::Result<K>
    ensures { IfOk result (λ x. reply ≡ Ok (Outcome.Element x)) }
{
    match reply? {
        Outcome::Element(x) => Ok(x),
        _ => Err(anyhow!("a fetch was not answered with an element")),
    }
}

// The row of one run.
fn print_row(rt: &HostRuntime, name: &str, replies: [Reply<Metres>; 4]) -> anyhow::Result<()> {
    let c11 = fetched(replies[0])?;
    let c12 = fetched(replies[1])?;
    let c21 = fetched(replies[2])?;
    let c22 = fetched(replies[3])?;
    println!(rt; "{name} {c11} {c12} {c21} {c22}")?;
    Ok(())
}

// The rows of both runs; the last four calls fetched C.
pub(super) fn print_rows(
    rt: &HostRuntime,
    names: [&str; 2],
    entries: [Entry<Metres>; 17],
) -> anyhow::Result<()> {
    let [.., a, b, c, d] = entries;
    print_row(rt, names[0], [a.left, b.left, c.left, d.left])?;
    print_row(rt, names[1], [a.right, b.right, c.right, d.right])
}
