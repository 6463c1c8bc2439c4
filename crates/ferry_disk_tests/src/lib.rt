//! Tests of the devices, of the log over them, of the counter and of the end of the blocks, of sessions, of compaction, and of the devices
//! over the system.
#![tactic(auto)]

#[cfg(test)]
mod blocks;
#[cfg(test)]
mod compact;
#[cfg(test)]
mod devices;
#[cfg(test)]
mod disk;
#[cfg(test)]
mod failing;
#[cfg(test)]
mod layout;
#[cfg(test)]
mod log;
#[cfg(test)]
mod nonce;
#[cfg(test)]
mod place;
#[cfg(test)]
mod real;
#[cfg(test)]
mod small;
#[cfg(test)]
mod stop;
#[cfg(test)]
mod worked;
#[cfg(test)]
mod write;
