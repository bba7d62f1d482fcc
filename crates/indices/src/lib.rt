// Lists with an entry for each of up to eight dimensions: coordinates, or extents.

#![tactic(auto)]

pub mod index;
mod indices;
