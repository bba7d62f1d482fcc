// The verdict on a sheet.
ghost use Rattle.std.specs.Prelude.{◌≡◌, ◌≤◌, false, [], ◌∷◌, map, length, take, is_ok, IfOk};
ghost use Rattle.refusals.specs.Refusals.{answer, answered, done, and_then};
ghost use Rattle.shapes.specs.Shapes.{shapes_of};
ghost use Rattle.sheets.specs.Language.{Means};
ghost use Rattle.sheets.specs.Rules.{info_in, node_in};
ghost use Rattle.sheets.specs.Sheets.{contents, judged_sheet, filled};
ghost use Rattle.sheets.specs.Verdict.{infos_from, statements_from, tables};

use super::checked::CheckedSheet;
use super::node::{Node, Statement};
use super::passed::{JudgedNode, Known};
use refusals::refusal::Refusal;
use shapes::declaration::Declaration;
use shapes::table::Table;

// The verdict: the number and the place of the first thing wrong, or the lent sheet gets its own copy of the tables.
pub fn judge(
    declared: &[Declaration],
    nodes: &[Node],
    statements: &[Statement],
    sheet: &mut CheckedSheet,
) -> Result<(), Refusal>
    ensures answers { answered result ≡ and_then (judged_sheet declared.now nodes.now statements.now) (λ _. done tt) }
    ensures fills { contents sheet.new ≡ filled (judged_sheet declared.now nodes.now statements.now) (contents sheet.old) }
    ensures same { is_ok result ≡ false → sheet.new ≡ sheet.old }
    ensures means { Means declared.now nodes.now statements.now (is_ok result) }
{
    *sheet = judged_sheet(declared, nodes, statements)?;
    Ok(())
}

// The questions in order, and the sheet where all pass.
fn judged_sheet(
    declared: &[Declaration],
    nodes: &[Node],
    statements: &[Statement],
) -> Result<CheckedSheet, Refusal>
    ensures { answer contents result ≡ judged_sheet declared.now nodes.now statements.now }
{
    let table = Table::try_from(declared)?;
    if nodes.len() > 256 || statements.len() > 64 {
        return Err(Refusal::TooManyRows);
    }
    let judged = judge_nodes(&table, nodes)?;
    let known = Known {
        table: &table,
        nodes: &judged[..nodes.len()],
    };
    known.judge_statements(statements)?;
    Ok(CheckedSheet {
        table,
        node_count: nodes.len(),
        nodes: judged,
        statement_count: statements.len(),
        statements: own(statements),
    })
}

// A table of its own of the statements, with blank ones behind them.
fn own(statements: &[Statement]) -> [Statement; 64]
    requires { length statements.now ≤ 64 }
    ensures { take (length statements.now) result ≡ statements.now }
{
    let mut table = [Statement::default(); 64];
    table[..statements.len()].copy_from_slice(statements);
    table
}

// The questions about the nodes, each node's before the next one's.
fn judge_nodes(table: &Table, nodes: &[Node]) -> Result<[JudgedNode; 256], Refusal>
    requires { length nodes.now ≤ 256 }
    ensures infos { answer (λ js. map info_in (take (length nodes.now) js)) result ≡ infos_from (shapes_of table.now) 1 [] nodes.now }
    ensures same { IfOk result (λ js. map node_in (take (length nodes.now) js) ≡ nodes.now) }
{
    let mut judged = [JudgedNode::default(); 256];
    for (k, node) in nodes.iter().enumerate() {
        let known = Known {
            table,
            nodes: &judged[..k],
        };
        let judgement = known.judge(*node)?;
        judged[k] = JudgedNode {
            node: *node,
            judgement,
        };
    }
    Ok(judged)
}

impl Known<'_> {
    // The questions about the statements, both before the next one's.
    fn judge_statements(&self, statements: &[Statement]) -> Result<(), Refusal>
        ensures { answered result ≡ statements_from (shapes_of self.now.table.now) (map info_in self.now.nodes.now) 1 statements.now }
    {
        for (k, statement) in statements.iter().enumerate() {
            self.judge_statement(*statement, k + 1)?;
        }
        Ok(())
    }

    // The two questions about statement s.
    fn judge_statement(&self, statement: Statement, s: usize) -> Result<(), Refusal>
        ensures { answered result ≡ statements_from (shapes_of self.now.table.now) (map info_in self.now.nodes.now) s (statement ∷ []) }
    {
        let node = self.node(statement.node).ok_or(Refusal::BadTarget(s))?;
        let shape = self
            .table
            .shape(usize::from(statement.variable))
            .map_err(|_| Refusal::BadTarget(s))?;
        if shape.extents() != node.extents.as_slice() {
            return Err(Refusal::OtherType(s));
        }
        Ok(())
    }
}
