// The forms that a node may have.
ghost use Rattle.std.specs.Prelude.{◌≡◌};
ghost use Rattle.std.specs.Result.{result_ok};
ghost use Rattle.sheets.specs.Forms.{form_of, tidy as tidy_of};

use super::node::Node;
use super::term::Operation;

#[derive(Clone, Copy, PartialEq, Eq, Debug)]
pub enum Form {
    Variable,
    Outer,
    Pointwise(Operation),
    Transposition,
    Contraction,
}

// A number that is no kind of node.
#[derive(Clone, Copy, PartialEq, Eq, Debug)]
pub struct UnknownKind(pub u16);

// The form of a kind, if there is one.
impl TryFrom<u16> for Form {
    type Error = UnknownKind;

    ghost try_from_gives = { λ kind form. result_ok form ≡ form_of kind };

    fn try_from(kind: u16) -> Result<Form, UnknownKind> {
        match kind {
            1 => Ok(Form::Variable),
            2 => Ok(Form::Outer),
            3 => Ok(Form::Pointwise(Operation::Plus)),
            4 => Ok(Form::Pointwise(Operation::Minus)),
            5 => Ok(Form::Pointwise(Operation::Times)),
            6 => Ok(Form::Pointwise(Operation::Over)),
            7 => Ok(Form::Transposition),
            8 => Ok(Form::Contraction),
            _ => Err(UnknownKind(kind)),
        }
    }
}

// Whether every field that the form does not use is zero.
pub(super) fn tidy(form: Form, node: Node) -> bool
    ensures { result ≡ tidy_of form node }
{
    match form {
        Form::Variable => node.b == 0 && node.m == 0 && node.n == 0,
        Form::Outer | Form::Pointwise(_) => node.m == 0 && node.n == 0,
        Form::Transposition | Form::Contraction => node.b == 0,
    }
}
