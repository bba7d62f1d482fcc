// The nodes that passed so far.
ghost use Rattle.std.specs.Prelude.{◌≡◌, ◌+◌, map, length, if◌then◌else◌, Some, None};
ghost use Rattle.std.specs.Option.{option_map};
ghost use Rattle.refusals.specs.Refusals.{answer};
ghost use Rattle.sheets.specs.Rules.{info_of, info_in, info_at, earlier, operand_answer};

use super::judgement::Judgement;
use super::node::Node;
use refusals::refusal::Refusal;
use shapes::table::Table;

// A node, and what the verdict found out about it.
#[derive(Clone, Copy, Default)]
pub struct JudgedNode {
    pub(crate) node: Node,
    pub(crate) judgement: Judgement,
}

// What is known where a question is asked: the shapes of the variables, and the nodes judged so far.
#[derive(Clone, Copy)]
pub(crate) struct Known<'a> {
    pub(crate) table: &'a Table,
    pub(crate) nodes: &'a [JudgedNode],
}

impl Known<'_> {
    // What is known of node j, from 1, if it is judged.
    pub(crate) fn node(&self, j: u16) -> Option<Judgement>
        ensures { option_map info_of result ≡ (if earlier j (length self.now.nodes.now + 1) then Some (info_at (map info_in self.now.nodes.now) j) else None) }
    {
        let node = self.nodes.get(usize::from(j).checked_sub(1)?)?;
        Some(node.judgement)
    }

    // What is known of an operand of the next node, which has to be an earlier one.
    pub(crate) fn operand(&self, j: u16) -> Result<Judgement, Refusal>
        ensures { answer info_of result ≡ operand_answer (map info_in self.now.nodes.now) j }
    {
        self.node(j)
            .ok_or(Refusal::BadOperand(self.nodes.len() + 1))
    }
}
