// Sheets: tables of declarations, nodes and statements, and the verdict on them.
// A sheet that was not judged has another type than one that passed.

#![tactic(auto)]

mod asking;
pub mod checked;
mod form;
mod judgement;
pub mod node;
mod nodes;
mod passed;
mod reading;
mod rules;
pub mod term;
#[cfg(test)]
mod tests;
pub mod verdict;
