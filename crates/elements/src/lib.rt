// Every kind has a zero, an undefined value, four operations and a 64-bit code for each value, and keeps the laws of `kind::Kind`.
// The rules for zero and for undefined operands are written once, in `element`; a kind says only what its defined values do.

#![tactic(auto)]

pub mod cost;
pub mod distance;
pub mod element;
pub mod kind;
pub mod legs;
pub mod metres;
pub mod quantity;
#[cfg(test)]
mod tests;
