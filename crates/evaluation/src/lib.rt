// The value of a node of a checked sheet, over any kind of element and any store.
// `value` gives it at an index, and its contract names the law that no layout can matter to it; `work_out` gives it at every place
// of a statement's variable. Both are for a run.

#![tactic(auto)]

mod coded;
mod fitting;
mod frame;
mod machine;
mod reach;
mod site;
#[cfg(test)]
mod tests;
pub mod tray;
pub mod value;
