//! Kernels over bytes: the xor of two buffers, leading zero bytes, equality.
//!
//! Each equals a plain function of lists for every length (`specs/`), so what stands above can rely
//! on the function alone, whichever way the bytes are gone through. Nothing here takes memory or
//! refuses.
#![tactic(auto)]

mod kernels;

pub use kernels::{same, xor_into, zero_prefix};
