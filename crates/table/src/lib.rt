#![tactic(auto)]

// Checked tables: the bytes of a property, read once and from then on known to keep every rule.
pub mod check;
pub mod format;
pub mod laws;
pub mod query;
pub mod span;
pub mod table;
