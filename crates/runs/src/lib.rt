// Runs of a checked sheet over a store, and the agreement of any two of them.
// `open` gives a run and a token, `close` takes both back; `fetch`, `put`, `step` and `rewind` are the calls between. `agree`
// passes one list of calls to two runs, and its contract says that they reply and hold alike, all along.

#![tactic(auto)]

pub mod agreement;
pub mod calls;
pub mod list;
pub mod opening;
pub mod run;
#[cfg(test)]
mod tests;
mod writing;
