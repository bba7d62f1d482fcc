// Stores: where the elements of a sheet's variables are kept.
// The trait `Store` says what every store means and what each call answers; `Cells` keeps its elements in a vector.

#![tactic(auto)]

pub mod cells;
pub mod matching;
pub mod mismatch;
pub mod store;
#[cfg(test)]
mod tests;
