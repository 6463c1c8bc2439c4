//! Tests of the ciphers, formats and words, over vectors of standards, bytes that others wrote and examples worked out by hand.
#![tactic(auto)]

#[cfg(test)]
mod aes;
#[cfg(test)]
mod blob;
#[cfg(test)]
mod bytes;
#[cfg(test)]
mod config;
#[cfg(test)]
mod fields;
#[cfg(test)]
mod item;
#[cfg(test)]
mod keyblob;
#[cfg(test)]
mod keyfile;
#[cfg(test)]
mod lanes;
#[cfg(test)]
mod mac;
#[cfg(test)]
mod manifest;
#[cfg(test)]
mod msgpack;
#[cfg(test)]
mod rechunk;
#[cfg(test)]
mod segment;
#[cfg(test)]
mod text;
#[cfg(test)]
mod words;
