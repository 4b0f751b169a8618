// A unit as one line of text: ten fields with one space between, each a table in lower-case hexadecimal.
// This crate knows how a unit is written and what the check answers, and nothing of where lines come from.
// It promises which tables a line stands for, and that any other line is called unreadable.
#![tactic(auto)]

pub mod ending;
pub mod error;
mod fields;
mod hexadecimal;
pub mod line;
pub mod outcome;
