//! The tests of the hash table's crates, over their public calls.
#![tactic(auto)]

#[cfg(test)]
mod tests;
