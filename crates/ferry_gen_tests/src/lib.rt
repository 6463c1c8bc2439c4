//! A test of `ferry_gen`: that the drill's source is made.
#![tactic(auto)]

#[cfg(test)]
mod source;
