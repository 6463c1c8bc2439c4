//! Tests of `ferry_tree`, over archives in memory that Python sealed.
#![tactic(auto)]

#[cfg(test)]
mod fixture;
#[cfg(test)]
mod folder;
#[cfg(test)]
mod restoring;
