// A checked sheet: the tables of a sheet that passed the verdict.
ghost use Rattle.std.specs.Prelude.{◌≡◌, ◌≤◌, true, map, length, take};
ghost use Rattle.shapes.specs.Shapes.{shapes_of};
ghost use Rattle.sheets.specs.Rules.{info_in, node_in};
ghost use Rattle.sheets.specs.Verdict.{tables, finds};

use super::node::Statement;
use super::passed::JudgedNode;
use shapes::table::Table;

// Its own copy of the three tables, with what is known of each node. Only the verdict fills one.
// The counts stand beside the arrays: no heap, and a sheet is copied.
#[derive(Clone, Copy)]
pub struct CheckedSheet {
    pub(crate) table: Table,
    pub(crate) node_count: usize,
    pub(crate) nodes: [JudgedNode; 256],
    pub(crate) statement_count: usize,
    pub(crate) statements: [Statement; 64],
    ghost nodes_whole: { length nodes ≡ 256 },
    ghost statements_whole: { length statements ≡ 64 },
    ghost few_nodes: { node_count ≤ 256 },
    ghost few_statements: { statement_count ≤ 64 },
    ghost sound: { finds (map info_in (take node_count nodes)) (tables (shapes_of table) (map node_in (take node_count nodes)) (take statement_count statements)) ≡ true },
}
