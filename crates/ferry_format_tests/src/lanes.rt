//! Bytes past a lane of 32, by hand.

use ferry_lanes::{same, xor_into, zero_prefix};

/// Whether 33 bytes are added, compared, and looked at for zeros.
fn kernels_agree() -> bool {
    let mut bytes = [0x0fu8; 33];
    xor_into(&mut bytes, &[0xff; 33]);
    let is_sum = same(&bytes, &[0xf0; 33]);
    bytes[32] = 1;
    let is_other = !same(&bytes, &[0xf0; 33]);
    let begins_with_none = zero_prefix(&bytes) == 0;
    xor_into(&mut bytes[..32], &[0xf0; 32]);
    is_sum && is_other && begins_with_none && zero_prefix(&bytes) == 32
}

/// Whether the zeros in front of another byte are counted, and those of no bytes.
fn zeros_are_counted() -> bool {
    zero_prefix(&[0, 0, 1, 0]) == 2 && zero_prefix(&[]) == 0
}

#[test]
fn each_kernel_past_a_lane_of_32_bytes(rt: HostRuntime) {
    assert!(rt; kernels_agree() && zeros_are_counted());
}
