// What a checked sheet tells: what its nodes are made of, its statements and the shapes of its variables.
ghost use Rattle.std.specs.Prelude.{◌≡◌, ◌&&◌, ◌∷◌, length, take, if◌then◌else◌, Some, None, nat_le, slice_index_or};
ghost use Rattle.shapes.specs.Shapes.{shapes_of};
ghost use Rattle.sheets.specs.Forms.{form_of};
ghost use Rattle.sheets.specs.Language.{blank};
ghost use Rattle.sheets.specs.Rules.{info_at};
ghost use Rattle.sheets.specs.Sheets.{contents};
ghost use Rattle.sheets.specs.Terms.{node_there, node_at, made_of, term_as, term_of, Told};

use super::checked::CheckedSheet;
use super::form::Form;
use super::node::{Node, Statement};
use super::passed::{JudgedNode, Known};
use super::term::Term;
use shapes::table::Table;

impl CheckedSheet {
    // What node k is made of, if there is such a node.
    pub fn term(&self, k: u16) -> Option<Term>
        ensures value { result ≡ (if node_there (contents self.now) k then term_of (contents self.now).nodes k else None) }
        ensures unfolds { Told (contents self.now) k result }
    {
        made_of(self.node(k)?)
    }

    // The rank of node k; 0 where there is no such node: it is public, and never fails.
    pub fn rank(&self, k: u16) -> usize
        ensures { result ≡ length (info_at (contents self.now).infos k).extents }
    {
        let known = Known {
            table: &self.table,
            nodes: self.nodes(),
        };
        known
            .node(k)
            .map_or(0, |judgement| judgement.extents.as_slice().len())
    }

    // How many statements there are.
    pub fn statements(&self) -> usize
        ensures { result ≡ length (contents self.now).statements }
    {
        self.statement_count
    }

    // Statement s, from 1, if there is one.
    pub fn statement(&self, s: usize) -> Option<Statement>
        ensures { result ≡ (if nat_le 1 s && nat_le s (length (contents self.now).statements) then Some (slice_index_or (blank ∷ (contents self.now).statements) s blank) else None) }
    {
        self.statements[..self.statement_count]
            .get(s.checked_sub(1)?)
            .copied()
    }

    // The nodes, with what is known of each.
    fn nodes(&self) -> &[JudgedNode]
        ensures { result.now ≡ take self.now.node_count self.now.nodes }
    {
        &self.nodes[..self.node_count]
    }

    // Node k, from 1, if there is one.
    fn node(&self, k: u16) -> Option<Node>
        ensures { result ≡ (if node_there (contents self.now) k then Some (node_at (contents self.now).nodes k) else None) }
    {
        let judged = self.nodes().get(usize::from(k).checked_sub(1)?)?;
        Some(judged.node)
    }

    // The shapes of the variables.
    pub fn table(&self) -> Table
        ensures { shapes_of result ≡ (contents self.now).shapes }
    {
        self.table
    }
}

// What a node is made of, by its kind.
fn made_of(node: Node) -> Option<Term>
    ensures { result ≡ term_as node (form_of node.kind) }
{
    let form = Form::try_from(node.kind).ok()?;
    Some(term_of(form, node))
}

// What a node of this form is made of.
fn term_of(form: Form, node: Node) -> Term
    ensures { result ≡ made_of form node }
{
    let Node { a, b, m, n, .. } = node;
    match form {
        Form::Variable => Term::Variable { variable: a },
        Form::Outer => Term::Outer { a, b },
        Form::Pointwise(operation) => Term::Pointwise { operation, a, b },
        Form::Transposition => Term::Turned { a, m, n },
        Form::Contraction => Term::Contracted { a, m, n },
    }
}
