// Padding: a layer over any store that rounds every extent up to a multiple of a vector length, and is again a store.
// It shows the true shapes; its reach and its elements are those of the store below, and every spare place holds zero.

#![tactic(auto)]

mod clearing;
pub mod layer;
mod rounding;
#[cfg(test)]
mod tests;
pub mod vector_length;
