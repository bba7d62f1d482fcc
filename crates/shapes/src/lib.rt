// Shapes of tables: what may be declared, which places a shape has, and how they are numbered.
// A `Shape` is a declaration that was judged, so it holds nothing that is no shape; a `Table` holds those of all variables.

#![tactic(auto)]

pub mod declaration;
mod declaring;
mod lookups;
mod measures;
mod places;
pub mod shape;
pub mod table;
