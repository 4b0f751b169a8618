// Tests of the first-wins list on numbers and on words.
// They have a crate of their own, so that the crate that they test is proved once.
#![tactic(auto)]

#[cfg(test)]
mod tests;
