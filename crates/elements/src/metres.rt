// Metres: distances as signed numbers.
ghost use Rattle.std.specs.Prelude.{◌≡◌, pos, Some, MatchOption};
ghost use Rattle.std.specs.Fmt.{signed_decimal};
ghost use Rattle.elements.specs.Metres.{distance, metres as arithmetic_of_metres, Truncated};
ghost use Rattle.elements.specs.Soundness.{metres_sound};

use super::distance::Distance;
use super::element::Element;
use super::quantity::Quantity;
use std::fmt;

pub type Metres = Element<Distance>;

impl Distance {
    // The number of metres.
    pub fn value(self) -> i32
        ensures { result ≡ self.metres }
    {
        self.metres
    }

    fn wide(self) -> i64
        ensures { result ≡ self.metres }
    {
        i64::from(self.metres)
    }
}

impl fmt::Display for Distance {
    ghost output = { λ x. Some (signed_decimal x.metres) };

    fn fmt<W: fmt::Write>(&self, f: &mut fmt::Formatter<W>) -> fmt::Result {
        let metres = self.metres;
        write!(f, "{metres}")
    }
}

impl Quantity for Distance {
    type Number = i64;

    ghost arithmetic = { arithmetic_of_metres };

    ghost made = { distance };

    ghost sound = { metres_sound };

    fn of(number: i64) -> Option<Distance> {
        if number < -2_147_483_647 || number > 2_147_483_647 {
            return None;
        }
        Some(Distance {
            metres: number as i32,
        })
    }

    fn number() -> u8 {
        1
    }

    fn zero() -> Distance {
        Distance { metres: 0 }
    }

    fn is_zero(self) -> bool {
        self.value() == 0
    }

    fn sum(self, other: Distance) -> Option<Distance> {
        Distance::of(self.wide() + other.wide())
    }

    fn difference(self, other: Distance) -> Option<Distance> {
        Distance::of(self.wide() - other.wide())
    }

    fn product(self, other: Distance) -> Option<Distance> {
        Distance::of(self.wide() * other.wide())
    }

    fn quotient(self, other: Distance) -> Option<Distance>
        ensures value { result ≡ arithmetic_of_metres.over self other }
        ensures truncated { MatchOption result (other.metres ≡ pos 0) (λ q. Truncated self.metres other.metres q.metres) }
    {
        if other.is_zero() {
            return None;
        }
        Distance::of(self.wide() / other.wide())
    }

    fn code(self) -> u64 {
        (self.wide() + 2_147_483_648) as u64
    }

    fn decode(code: u64) -> Option<Distance> {
        Distance::of(i64::try_from(code).ok()? - 2_147_483_648)
    }

    fn blank() -> u64 {
        0
    }
}
