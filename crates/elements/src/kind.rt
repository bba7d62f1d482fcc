// What every kind of element has, and the laws that it keeps.
ghost use Rattle.std.specs.Prelude.{◌≡◌, Decides};
ghost use Rattle.elements.specs.Algebra.{Algebra, Laws, Strict, is_zero};

pub trait Kind: Copy {
    ghost algebra: { Algebra Self };

    fn number() -> u8
        ensures { result ≡ algebra.number };

    fn zero() -> Self
        ensures { result ≡ algebra.zero };

    fn undefined() -> Self
        ensures { result ≡ algebra.undefined };

    fn sum(self, other: Self) -> Self
        ensures { result ≡ algebra.plus self other };

    fn difference(self, other: Self) -> Self
        ensures { result ≡ algebra.minus self other };

    fn product(self, other: Self) -> Self
        ensures { result ≡ algebra.times self other };

    fn quotient(self, other: Self) -> Self
        ensures { result ≡ algebra.over self other };

    fn code(self) -> u64
        ensures { result ≡ algebra.code self };

    // The value with this code, if a value has it.
    fn decode(code: u64) -> Option<Self>
        ensures { result ≡ algebra.decode code };

    ghost lawful: { Laws algebra };

    ghost strict: { Strict algebra };
}

// Whether an element is its kind's zero.
pub fn is_zero<K: Kind>(x: K) -> bool
    ensures value { result ≡ is_zero K.Kind.algebra x }
    ensures decides { Decides result (x ≡ K.Kind.algebra.zero) }
{
    x.code() == K::zero().code()
}
