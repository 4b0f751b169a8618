// A unit: the word bytes and nine tables, lent as byte slices, their check, and the rows of a checked unit.
// This crate knows how bytes lie in tables and nothing of what a collection does with them. It promises
// that a unit is accepted exactly when every number, part, kind and flag is in order, that a refusal is
// the first in order, and that what is read of a checked unit lies inside its table.
#![tactic(auto)]

pub mod check;
pub mod checked;
mod flaws;
mod readers;
pub mod records;
pub mod refusal;
pub mod rows;
pub mod table;
mod table_checks;
pub mod unit_tables;
