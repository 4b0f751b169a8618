// Tables of bytes: rows of a fixed width, cells of four bytes, and parts of other tables.
// This crate knows no table by name. It promises which number stands where, and its proofs
// have what a check needs that tells the first refusal in order.
#![tactic(auto)]

pub mod cells;
pub mod parts;
pub mod row;
