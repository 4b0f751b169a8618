// Runs of any machine that takes steps: the theory of resting, with no state, fault or report in sight.
// This crate knows nothing but that a machine goes on, is done or fails. It promises what holds of every run,
// each law on a function that has no other work: what stands above is an instance of them.
#![tactic(auto)]

pub mod laws;
