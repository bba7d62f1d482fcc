// An empty checked sheet, and who wrote a variable last.
ghost use Rattle.std.specs.Prelude.{◌≡◌, ◌+◌, [], length};
ghost use Rattle.refusals.specs.Refusals.{answer};
ghost use Rattle.sheets.specs.Sheets.{contents};
ghost use Rattle.sheets.specs.Writers.{LastWriter, Writer, writer_answer};

use super::checked::CheckedSheet;
use super::node::Statement;
use super::passed::JudgedNode;
use refusals::refusal::Refusal;
use shapes::table::Table;

impl CheckedSheet {
    // A sheet without variables, nodes and statements, to be lent to the verdict.
    pub fn empty() -> CheckedSheet
        ensures { contents result ≡ record { shapes = []; nodes = []; statements = []; infos = [] } }
    {
        CheckedSheet {
            table: Table::empty(),
            node_count: 0,
            nodes: [JudgedNode::default(); 256],
            statement_count: 0,
            statements: [Statement::default(); 64],
        }
    }

    // The greatest statement number below s that assigns the variable, if one does.
    pub fn last_writer(&self, variable: u16, s: usize) -> Result<Option<usize>, Refusal>
        ensures asked { answer (λ _. tt) result ≡ writer_answer (contents self.now) variable s }
        ensures found { LastWriter (contents self.now).statements variable s result }
    {
        if self.table.shape(usize::from(variable)).is_err()
            || s < 1
            || s > self.statement_count + 1
        {
            return Err(Refusal::OutOfSheet);
        }
        Ok(last_before(&self.statements[..s - 1], variable))
    }
}

// The number of the last of the statements that assigns the variable, if one does.
fn last_before(statements: &[Statement], variable: u16) -> Option<usize>
    ensures { Writer statements.now variable (length statements.now + 1) result }
{
    let last = statements.iter().rposition(|s| s.variable == variable)?;
    Some(last + 1)
}
