// Images: a store that keeps the codes of its elements in a byte buffer, big-endian, the first coordinate running fastest.
// A buffer is taken as it lies, gaps and a tail included, and only the eight bytes of a cell are ever written.

#![tactic(auto)]

mod buffer;
pub mod filling;
pub mod image;
mod opening;
#[cfg(test)]
mod tests;
