// Every refusal of the engine, with its number and position.

#![tactic(auto)]

pub mod refusal;
