// The cost of a leg, from 0 to 2,147,483,647.
ghost use Rattle.std.specs.Prelude.{◌≡◌, true};
ghost use Rattle.elements.specs.Ranges.{payable};

#[derive(Clone, Copy, PartialEq, Eq, PartialOrd, Ord, Debug)]
pub struct Cost {
    pub(crate) value: u32,
    ghost ranged: { payable value ≡ true },
}
