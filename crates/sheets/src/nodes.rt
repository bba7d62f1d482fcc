// The questions about one node.
ghost use Rattle.std.specs.Prelude.{◌≡◌, ◌+◌, map, length};
ghost use Rattle.refusals.specs.Refusals.{answer};
ghost use Rattle.shapes.specs.Shapes.{shapes_of};
ghost use Rattle.sheets.specs.Rules.{info_of, info_in, node_answer, variable_answer};

use super::form::{Form, tidy};
use super::judgement::Judgement;
use super::node::Node;
use super::passed::Known;
use super::rules;
use indices::index::Index;
use refusals::refusal::Refusal;

impl Known<'_> {
    // The four questions about the node that comes after the judged ones.
    pub(crate) fn judge(&self, node: Node) -> Result<Judgement, Refusal>
        ensures { answer info_of result ≡ node_answer (shapes_of self.now.table.now) (length self.now.nodes.now + 1) (map info_in self.now.nodes.now) node }
    {
        let k = self.nodes.len() + 1;
        let form = Form::try_from(node.kind).map_err(|_| Refusal::BadNode(k))?;
        if !tidy(form, node) {
            return Err(Refusal::BadNode(k));
        }
        let (m, n) = (usize::from(node.m), usize::from(node.n));
        // a match, as wherever forms and operations are told apart: they stand in the sheet, as data
        match form {
            Form::Variable => self.variable(node.a),
            Form::Outer => rules::outer(self.operand(node.a)?, self.operand(node.b)?, k),
            Form::Pointwise(operation) => rules::pointwise(
                operation,
                self.operand(node.a)?,
                self.operand(node.b)?,
                k,
            ),
            Form::Transposition => rules::turned(self.operand(node.a)?, m, n, k),
            Form::Contraction => rules::contracted(self.operand(node.a)?, m, n, k),
        }
    }

    // The judgement on the next node, a variable, if it is declared.
    fn variable(&self, a: u16) -> Result<Judgement, Refusal>
        ensures { answer info_of result ≡ variable_answer (shapes_of self.now.table.now) (length self.now.nodes.now + 1) a }
    {
        let k = self.nodes.len() + 1;
        let shape = self
            .table
            .shape(usize::from(a))
            .map_err(|_| Refusal::BadOperand(k))?;
        rules::bounded(Index::from(shape), 1, 0, k)
    }
}
