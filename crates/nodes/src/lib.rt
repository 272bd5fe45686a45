#![tactic(auto)]

// The nodes of a table: how eight bytes spell one, which may follow which, and the tree that each
// stands for.
pub mod build;
pub mod decode;
mod facts;
pub mod list;
pub mod node;
mod operands;
pub mod query;
mod rules;
