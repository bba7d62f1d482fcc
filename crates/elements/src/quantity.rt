// What a kind says of its defined values; `element` makes a kind of it.
ghost use Rattle.std.specs.Prelude.{◌≡◌, Option};
ghost use Rattle.elements.specs.Arithmetic.{Arithmetic, Sound};

// An operation gives `None` where its result is undefined.
pub trait Quantity: Copy {
    // The type of number that a value is made from.
    type Number;

    ghost arithmetic: { Arithmetic Self };

    ghost made: { Self.Number → Option Self };

    // The value of this number, if it is in the range.
    fn of(number: Self::Number) -> Option<Self>
        ensures { result ≡ made number };

    fn number() -> u8
        ensures { result ≡ arithmetic.number };

    fn zero() -> Self
        ensures { result ≡ arithmetic.zero };

    fn is_zero(self) -> bool
        ensures { result ≡ arithmetic.null self };

    fn sum(self, other: Self) -> Option<Self>
        ensures { result ≡ arithmetic.plus self other };

    fn difference(self, other: Self) -> Option<Self>
        ensures { result ≡ arithmetic.minus self other };

    // Asked only where neither operand is zero.
    fn product(self, other: Self) -> Option<Self>
        ensures { result ≡ arithmetic.times self other };

    // Asked only where the dividend is not zero.
    fn quotient(self, other: Self) -> Option<Self>
        ensures { result ≡ arithmetic.over self other };

    fn code(self) -> u64
        ensures { result ≡ arithmetic.code self };

    fn decode(code: u64) -> Option<Self>
        ensures { result ≡ arithmetic.decode code };

    // The code of the undefined value, which no defined value has.
    fn blank() -> u64
        ensures { result ≡ arithmetic.blank };

    ghost sound: { Sound arithmetic };
}
