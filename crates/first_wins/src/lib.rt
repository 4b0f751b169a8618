// A first-wins list: entries in a slice, one for each key, the one that came first.
// This crate does not know what an entry is, nor when two of them have one key: a context says so (`Keys`).
// It promises what a list answers and holds, and that the list of a sequence is the earliest of its entries.
#![tactic(auto)]

pub mod keys;
pub mod laws;
pub mod list;
pub mod numbers;
pub mod words;
