// Every refusal of the engine, with its number and position.
ghost use Rattle.std.specs.Prelude.{◌≡◌};
ghost use Rattle.refusals.specs.Refusals.{number_of, position_of};

use std::error::Error;
use std::fmt;

// A position counts from 1; a refusal without one has position 0.
#[derive(Clone, Copy, PartialEq, Eq, Debug)]
pub enum Refusal {
    NoSuchVariable,
    OutOfReach,
    SpareTakesZero,
    TooManyDeclarations,
    BadDeclaration(usize),
    TooFewElements,
    BadHeader,
    BadPair(usize),
    BadCode(usize),
    BadVectorLength,
    TooWide(usize),
    OtherCountBelow,
    OtherShapeBelow(usize),
    TooManyRows,
    BadNode(usize),
    BadOperand(usize),
    NoType(usize),
    TooDeep(usize),
    BadTarget(usize),
    OtherType(usize),
    OtherCountDeclared,
    OtherShapeDeclared(usize),
    OutOfShape,
    ShortTray,
    NoStatementLeft,
    ValueNotTaken,
    OutOfSheet,
}

impl Refusal {
    pub fn number(self) -> u8
        ensures { result ≡ number_of self }
    {
        match self {
            Refusal::NoSuchVariable => 1,
            Refusal::OutOfReach => 2,
            Refusal::SpareTakesZero => 3,
            Refusal::TooManyDeclarations | Refusal::BadDeclaration(_) => 4,
            Refusal::TooFewElements => 5,
            Refusal::BadHeader => 6,
            Refusal::BadPair(_) => 7,
            Refusal::BadCode(_) => 8,
            Refusal::BadVectorLength => 9,
            Refusal::TooWide(_) => 10,
            Refusal::OtherCountBelow | Refusal::OtherShapeBelow(_) => 11,
            Refusal::TooManyRows => 12,
            Refusal::BadNode(_) => 13,
            Refusal::BadOperand(_) => 14,
            Refusal::NoType(_) => 15,
            Refusal::TooDeep(_) => 16,
            Refusal::BadTarget(_) => 17,
            Refusal::OtherType(_) => 18,
            Refusal::OtherCountDeclared | Refusal::OtherShapeDeclared(_) => 19,
            Refusal::OutOfShape => 20,
            Refusal::ShortTray => 21,
            Refusal::NoStatementLeft => 22,
            Refusal::ValueNotTaken => 23,
            Refusal::OutOfSheet => 24,
        }
    }

    pub fn position(self) -> usize
        ensures { result ≡ position_of self }
    {
        match self {
            Refusal::BadDeclaration(position)
            | Refusal::BadPair(position)
            | Refusal::BadCode(position)
            | Refusal::TooWide(position)
            | Refusal::OtherShapeBelow(position)
            | Refusal::BadNode(position)
            | Refusal::BadOperand(position)
            | Refusal::NoType(position)
            | Refusal::TooDeep(position)
            | Refusal::BadTarget(position)
            | Refusal::OtherShapeDeclared(position)
            | Refusal::OtherType(position) => position,
            _ => 0,
        }
    }

    fn reason(self) -> &'static str {
        match self {
            Refusal::NoSuchVariable => "there is no such variable or dimension",
            Refusal::OutOfReach => "the index is not as long as the rank, or is out of reach",
            Refusal::SpareTakesZero => "a padded place takes only zero",
            Refusal::TooManyDeclarations => "there are more than 16 declarations",
            Refusal::BadDeclaration(_) => "a declaration is no shape with zeros after it",
            Refusal::TooFewElements => "there are fewer elements than the shapes have places",
            Refusal::BadHeader => "the header is not of this kind and number of variables",
            Refusal::BadPair(_) => "a pair or its part does not lie where it may",
            Refusal::BadCode(_) => "a cell holds no code of the kind",
            Refusal::BadVectorLength => "the vector length is not from 1 to 16",
            Refusal::TooWide(_) => "a declaration is no shape once its extents are rounded up",
            Refusal::OtherCountBelow => "the store below has another number of variables",
            Refusal::OtherShapeBelow(_) => "the store below has another shape than the rounded one",
            Refusal::TooManyRows => "there are more than 256 nodes or 64 statements",
            Refusal::BadNode(_) =>
                "a node has no kind from 1 to 8, or a field that it does not use is not zero",
            Refusal::BadOperand(_) =>
                "a node names a variable that is not declared, or an operand that is no earlier node",
            Refusal::NoType(_) => "a node's rule gives no extents",
            Refusal::TooDeep(_) =>
                "a node has a rank above 8, a depth above 16 or a nesting above 3",
            Refusal::BadTarget(_) => "a statement names a variable or a node that is not there",
            Refusal::OtherType(_) => "a statement's variable and node have different types",
            Refusal::OtherCountDeclared =>
                "the store has another number of variables than the sheet",
            Refusal::OtherShapeDeclared(_) => "the store has another shape than the sheet declares",
            Refusal::OutOfShape => "the place is not in shape",
            Refusal::ShortTray => "the tray has fewer than 4,096 elements",
            Refusal::NoStatementLeft => "no statement is left",
            Refusal::ValueNotTaken => "the store did not take every value",
            Refusal::OutOfSheet =>
                "the variable is not declared, or the statement number is out of range",
        }
    }
}

impl fmt::Display for Refusal {
    fn fmt<W: fmt::Write>(&self, f: &mut fmt::Formatter<W>) -> fmt::Result {
        let number = self.number();
        let position = self.position();
        let reason = self.reason();
        write!(f, "refusal {number} at {position}: {reason}")
    }
}

impl Error for Refusal {}

// What a call that refused gives back, as it was.
#[derive(Drop)]
pub struct Declined<T> {
    pub refusal: Refusal,
    pub value: T,
}
