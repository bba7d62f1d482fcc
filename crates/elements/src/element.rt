// An element: a defined value or the undefined one, with the rules for zero and for undefined operands.
ghost use Rattle.std.specs.Prelude.{◌≡◌, Option};
ghost use Rattle.elements.specs.Elements.{element, null, strict, text, algebra_of};
ghost use Rattle.elements.specs.Soundness.{algebra_lawful, algebra_strict};

use super::kind::Kind;
use super::quantity::Quantity;
use std::fmt;

// A newtype, since what is written for an element is said here. None is the undefined one.
#[derive(Clone, Copy, PartialEq, Eq, Debug)]
pub struct Element<Q>(pub Option<Q>);

impl<Q: Quantity> Element<Q> {
    // The element of this number, or undefined outside the range.
    pub fn of(number: Q::Number) -> Element<Q>
        ensures { result ≡ element (Q.made number) }
    {
        Element(Q::of(number))
    }

    fn null(self) -> bool
        ensures { result ≡ null Q.arithmetic self }
    {
        self.0.is_some_and(Q::is_zero)
    }

    // What an operation on defined values makes of two elements.
    fn strict<F: FnOnce(Q, Q) -> Option<Q>>(self, other: Element<Q>, operation: F) -> Element<Q>
        requires { F.IsAlwaysCallable operation }
        ensures { (f : Q → Q → Option Q) → ((x y : Q) (r : Option Q) → F.post operation x y r → r ≡ f x y) → result ≡ strict f self other }
    {
        Element(self.0.zip(other.0).and_then(|(x, y)| operation(x, y)))
    }
}

impl<Q: fmt::Display> fmt::Display for Element<Q> {
    ghost output = { text Q.Display.output };

    fn fmt<W: fmt::Write>(&self, f: &mut fmt::Formatter<W>) -> fmt::Result {
        match &self.0 {
            Some(x) => write!(f, "{x}"),
            None => write!(f, "undefined"),
        }
    }
}

impl<Q: Quantity> Kind for Element<Q> {
    ghost algebra = { algebra_of Q.Quantity.arithmetic };

    ghost lawful = { algebra_lawful Q.Quantity.arithmetic Q.Quantity.sound };

    ghost strict = { algebra_strict Q.Quantity.arithmetic Q.Quantity.sound };

    fn number() -> u8 {
        Q::number()
    }

    fn zero() -> Element<Q> {
        Element(Some(Q::zero()))
    }

    fn undefined() -> Element<Q> {
        Element(None)
    }

    fn sum(self, other: Element<Q>) -> Element<Q> {
        self.strict(other, Q::sum)
    }

    fn difference(self, other: Element<Q>) -> Element<Q> {
        self.strict(other, Q::difference)
    }

    fn product(self, other: Element<Q>) -> Element<Q> {
        if self.null() || other.null() {
            return Self::zero();
        }
        self.strict(other, Q::product)
    }

    fn quotient(self, other: Element<Q>) -> Element<Q> {
        if self.null() {
            return Self::zero();
        }
        self.strict(other, Q::quotient)
    }

    fn code(self) -> u64 {
        self.0.map_or(Q::blank(), Q::code)
    }

    fn decode(code: u64) -> Option<Element<Q>> {
        if code == Q::blank() {
            return Some(Self::undefined());
        }
        Q::decode(code).map(|x| Element(Some(x)))
    }
}
