// Legs: the cost of going from one place to the next, or no way at all.
ghost use Rattle.std.specs.Prelude.{◌≡◌, Some, decimal};
ghost use Rattle.elements.specs.Legs.{cost, way, text, legs as arithmetic_of_legs};
ghost use Rattle.elements.specs.Soundness.{legs_sound};

use super::cost::Cost;
use super::element::Element;
use super::quantity::Quantity;
use std::fmt;

// "No way" is this kind's zero, and dearer than every cost. An enum: as an Option inside an element's Option, no way would read like undefined.
#[derive(Clone, Copy, PartialEq, Eq, PartialOrd, Ord, Debug)]
pub enum Leg {
    Way(Cost),
    NoWay,
}

pub type Legs = Element<Leg>;

impl Cost {
    // This cost, if it is in the range. No TryFrom: each use wants an Option, and would throw the error away.
    pub fn of(value: u64) -> Option<Cost>
        ensures { result ≡ cost value }
    {
        if value > 2_147_483_647 {
            return None;
        }
        Some(Cost {
            value: value as u32,
        })
    }

    pub fn value(self) -> u32
        ensures { result ≡ self.value }
    {
        self.value
    }
}

impl fmt::Display for Cost {
    ghost output = { λ c. Some (decimal c.value) };

    fn fmt<W: fmt::Write>(&self, f: &mut fmt::Formatter<W>) -> fmt::Result {
        let value = self.value;
        write!(f, "{value}")
    }
}

impl fmt::Display for Leg {
    ghost output = { λ x. Some (text x) };

    fn fmt<W: fmt::Write>(&self, f: &mut fmt::Formatter<W>) -> fmt::Result {
        match self {
            Leg::Way(cost) => write!(f, "{cost}"),
            Leg::NoWay => write!(f, "no way"),
        }
    }
}

impl Quantity for Leg {
    type Number = u64;

    ghost arithmetic = { arithmetic_of_legs };

    ghost made = { way };

    ghost sound = { legs_sound };

    fn of(number: u64) -> Option<Leg> {
        Cost::of(number).map(Leg::Way)
    }

    fn number() -> u8 {
        2
    }

    fn zero() -> Leg {
        Leg::NoWay
    }

    fn is_zero(self) -> bool {
        self == Leg::NoWay
    }

    fn sum(self, other: Leg) -> Option<Leg> {
        Some(self.min(other))
    }

    fn difference(self, other: Leg) -> Option<Leg> {
        Some(if self < other { self } else { Leg::NoWay })
    }

    fn product(self, other: Leg) -> Option<Leg> {
        match (self, other) {
            (Leg::Way(a), Leg::Way(b)) => Leg::of(u64::from(a.value) + u64::from(b.value)),
            _ => Some(Leg::NoWay),
        }
    }

    fn quotient(self, other: Leg) -> Option<Leg> {
        match (self, other) {
            (Leg::Way(a), Leg::Way(b)) => Leg::of(u64::from(a.value.checked_sub(b.value)?)),
            (Leg::Way(_), Leg::NoWay) => None,
            (Leg::NoWay, _) => Some(Leg::NoWay),
        }
    }

    fn code(self) -> u64 {
        match self {
            Leg::Way(cost) => u64::from(cost.value) + 2,
            Leg::NoWay => 1,
        }
    }

    fn decode(code: u64) -> Option<Leg> {
        match code {
            0 => None,
            1 => Some(Leg::NoWay),
            _ => Leg::of(code - 2),
        }
    }

    fn blank() -> u64 {
        0
    }
}
