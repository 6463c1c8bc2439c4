//! Tests of the crates that read, compare and write repositories, over repositories in memory, some of which Python sealed.
#![tactic(auto)]

#[cfg(test)]
mod compare;
#[cfg(test)]
mod fixture;
#[cfg(test)]
mod next;
#[cfg(test)]
mod piece;
#[cfg(test)]
mod putting;
#[cfg(test)]
mod refs;
#[cfg(test)]
mod repo;
#[cfg(test)]
mod store;
