// A distance in metres, from −2,147,483,647 to 2,147,483,647.
ghost use Rattle.std.specs.Prelude.{◌≡◌, true};
ghost use Rattle.elements.specs.Ranges.{measurable};

#[derive(Clone, Copy, PartialEq, Eq, Debug)]
pub struct Distance {
    pub(crate) metres: i32,
    ghost ranged: { measurable metres ≡ true },
}
