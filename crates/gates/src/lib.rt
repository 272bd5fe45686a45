#![tactic(auto)]

// The gates domain: a formula as a list of gates, an and-inverter graph.
pub mod gate;
pub mod list;
pub mod operations;
