// Vector lengths: what extents are rounded up to a multiple of.
ghost use Rattle.std.specs.Prelude.{◌≡◌, ◌≤◌};
ghost use Rattle.refusals.specs.Refusals.{answer};
ghost use Rattle.padding.specs.Rounding.{vector_length, Figures};

use refusals::refusal::Refusal;

// From 1 to 16.
#[derive(Clone, Copy)]
pub struct VectorLength {
    pub(super) count: u16,
    pub ghost low: { 1 ≤ count },
    pub ghost high: { count ≤ 16 },
}

// The least and the greatest vector length.
pub fn vector_lengths() -> (u16, u16)
    ensures bounds { (result.0 ≡ 1) × (result.1 ≡ 16) }
    ensures figures { Figures }
{
    (1, 16)
}

impl TryFrom<u16> for VectorLength {
    type Error = Refusal;

    ghost try_from_gives = { λ m r. answer (λ l. l.count) r ≡ vector_length m };

    fn try_from(m: u16) -> Result<VectorLength, Refusal> {
        let (least, greatest) = vector_lengths();
        if m < least || m > greatest {
            return Err(Refusal::BadVectorLength);
        }
        Ok(VectorLength { count: m })
    }
}
