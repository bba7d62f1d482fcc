// Works out a product of tables and its trace in both kinds of element over four layouts, and prints each figure beside the expected one.

#![tactic(auto)]

use self::layouts::print_over_all;
use self::report::Figures;
use elements::kind::Kind;
use elements::legs::Legs;
use elements::metres::Metres;

mod layouts;
mod report;
mod tables;

fn in_metres() -> Figures<Metres> {
    let (a, b, c) = (Metres::of(1), Metres::of(2), Metres::of(3));
    let z = Metres::of(0);
    Figures {
        kind: "metres",
        a: [a, b, c, Metres::of(4), Metres::of(5), Metres::of(6)],
        b: [a, z, b, a, z, c],
        product: [
            Metres::of(5),
            Metres::of(11),
            Metres::of(14),
            Metres::of(23),
        ],
        trace: Metres::of(28),
        filler: Metres::of(7),
    }
}

// Where metres have zero, there is no way.
fn in_legs() -> Figures<Legs> {
    let (a, b, c) = (Legs::of(1), Legs::of(2), Legs::of(3));
    let z = Legs::zero();
    Figures {
        kind: "legs",
        a: [a, b, c, Legs::of(4), Legs::of(5), Legs::of(6)],
        b: [a, z, b, a, z, c],
        product: [b, c, Legs::of(5), Legs::of(6)],
        trace: b,
        filler: Legs::of(7),
    }
}

fn print_all(rt: &HostRuntime) -> anyhow::Result<()> {
    println!(rt; "figure layout expected got")?;
    print_over_all(rt, &in_metres())?;
    print_over_all(rt, &in_legs())
}

fn main(rt: HostRuntime) -> anyhow::Result<()> {
    print_all(&rt)
}
