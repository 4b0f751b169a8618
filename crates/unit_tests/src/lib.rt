// Tests of the unit and its lines on the worked example of docs/UNIT.md.
// They have a crate of their own, so that the crates that they test are proved once.
#![tactic(auto)]

#[cfg(test)]
mod tests;
