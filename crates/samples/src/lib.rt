// The tables that the programs work on, and stores of declared tables that hold one element everywhere.

#![tactic(auto)]

pub mod layouts;
pub mod tables;
#[cfg(test)]
mod tests;
