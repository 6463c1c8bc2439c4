//! The S-box of AES on wide bit planes, FIPS 197, section 5.1.1, as a circuit of gates.
//!
//! The gates and their names are those of `circuit.rt`. Each works on a wide plane: on byte j of sixteen blocks.
ghost use Rattle.std.specs.Prelude.{ℕ, ◌≡◌, ◌<◌};
ghost use Rattle.ferry_aes.specs.SBox.{sbox};
ghost use Rattle.ferry_aes.specs.Planes.{wires, byte_at};
ghost use Rattle.ferry_aes.specs.Circuit.{first_sums, to_invert, inverse_bits, products, last_sums};

use crate::wide_gates::{WidePlanes, negated, product, sum};
use std::simd::prelude::*;

/// The first sums: wire 0 of the answer is bit 0 of the byte, wire k is the sum y of number k.
#[inline(always)]
fn first_sums(x: &[u8x32; 8]) -> [u8x32; 22]
    ensures { (j i : ℕ) → j < 32 → i < 8 → wires 22 result j i ≡ first_sums (wires 8 x.now j i) }
{
    let y14 = sum(x[4], x[2]);
    let y13 = sum(x[7], x[1]);
    let y9 = sum(x[7], x[4]);
    let y8 = sum(x[7], x[2]);
    let t0 = sum(x[6], x[5]);
    let y1 = sum(t0, x[0]);
    let y4 = sum(y1, x[4]);
    let y12 = sum(y13, y14);
    let y2 = sum(y1, x[7]);
    let y5 = sum(y1, x[1]);
    let y3 = sum(y5, y8);
    let t1 = sum(x[3], y12);
    let y15 = sum(t1, x[2]);
    let y20 = sum(t1, x[6]);
    let y6 = sum(y15, x[0]);
    let y10 = sum(y15, t0);
    let y11 = sum(y20, y9);
    let y7 = sum(x[0], y11);
    let y17 = sum(y10, y11);
    let y19 = sum(y10, y8);
    let y16 = sum(t0, y11);
    let y21 = sum(y13, y16);
    let y18 = sum(x[7], y16);
    [
        x[0], y1, y2, y3, y4, y5, y6, y7, y8, y9, y10, y11, y12, y13, y14, y15, y16, y17, y18, y19,
        y20, y21,
    ]
}

/// The four bits of the value in GF(2^4) that is inverted.
#[inline(always)]
fn to_invert(y: &[u8x32; 22]) -> [u8x32; 4]
    ensures { (j i : ℕ) → j < 32 → i < 8 → wires 4 result j i ≡ to_invert (wires 22 y.now j i) }
{
    let t2 = product(y[12], y[15]);
    let t3 = product(y[3], y[6]);
    let t4 = sum(t3, t2);
    let t5 = product(y[4], y[0]);
    let t6 = sum(t5, t2);
    let t7 = product(y[13], y[16]);
    let t8 = product(y[5], y[1]);
    let t9 = sum(t8, t7);
    let t10 = product(y[2], y[7]);
    let t11 = sum(t10, t7);
    let t12 = product(y[9], y[11]);
    let t13 = product(y[14], y[17]);
    let t14 = sum(t13, t12);
    let t15 = product(y[8], y[10]);
    let t16 = sum(t15, t12);
    let t17 = sum(t4, t14);
    let t18 = sum(t6, t16);
    let t19 = sum(t9, t14);
    let t20 = sum(t11, t16);
    let t21 = sum(t17, y[20]);
    let t22 = sum(t18, y[19]);
    let t23 = sum(t19, y[21]);
    let t24 = sum(t20, y[18]);
    [t21, t22, t23, t24]
}

/// The inverse in GF(2^4).
#[inline(always)]
fn inverse_bits(t: &[u8x32; 4]) -> [u8x32; 4]
    ensures { (j i : ℕ) → j < 32 → i < 8 → wires 4 result j i ≡ inverse_bits (wires 4 t.now j i) }
{
    let t25 = sum(t[0], t[1]);
    let t26 = product(t[0], t[2]);
    let t27 = sum(t[3], t26);
    let t28 = product(t25, t27);
    let t29 = sum(t28, t[1]);
    let t30 = sum(t[2], t[3]);
    let t31 = sum(t[1], t26);
    let t32 = product(t31, t30);
    let t33 = sum(t32, t[3]);
    let t34 = sum(t[2], t33);
    let t35 = sum(t27, t33);
    let t36 = product(t[3], t35);
    let t37 = sum(t36, t34);
    let t38 = sum(t27, t36);
    let t39 = product(t29, t38);
    let t40 = sum(t25, t39);
    [t29, t33, t37, t40]
}

/// The products of the inverse, and of sums of its bits, with the first sums.
#[inline(always)]
fn products(t: &[u8x32; 4], y: &[u8x32; 22]) -> [u8x32; 18]
    ensures { (j i : ℕ) → j < 32 → i < 8 → wires 18 result j i ≡ products (wires 4 t.now j i) (wires 22 y.now j i) }
{
    let t41 = sum(t[3], t[2]);
    let t42 = sum(t[0], t[1]);
    let t43 = sum(t[0], t[3]);
    let t44 = sum(t[1], t[2]);
    let t45 = sum(t42, t41);
    let z0 = product(t44, y[15]);
    let z1 = product(t[2], y[6]);
    let z2 = product(t[1], y[0]);
    let z3 = product(t43, y[16]);
    let z4 = product(t[3], y[1]);
    let z5 = product(t[0], y[7]);
    let z6 = product(t42, y[11]);
    let z7 = product(t45, y[17]);
    let z8 = product(t41, y[10]);
    let z9 = product(t44, y[12]);
    let z10 = product(t[2], y[3]);
    let z11 = product(t[1], y[4]);
    let z12 = product(t43, y[13]);
    let z13 = product(t[3], y[5]);
    let z14 = product(t[0], y[2]);
    let z15 = product(t42, y[9]);
    let z16 = product(t45, y[14]);
    let z17 = product(t41, y[8]);
    [
        z0, z1, z2, z3, z4, z5, z6, z7, z8, z9, z10, z11, z12, z13, z14, z15, z16, z17,
    ]
}

/// The last sums, with the affine map of 5.1.1: the eight bits of the S-box value, the lowest first.
#[inline(always)]
fn last_sums(z: &[u8x32; 18]) -> [u8x32; 8]
    ensures { (j i : ℕ) → j < 32 → i < 8 → wires 8 result j i ≡ last_sums (wires 18 z.now j i) }
{
    let t46 = sum(z[15], z[16]);
    let t47 = sum(z[10], z[11]);
    let t48 = sum(z[5], z[13]);
    let t49 = sum(z[9], z[10]);
    let t50 = sum(z[2], z[12]);
    let t51 = sum(z[2], z[5]);
    let t52 = sum(z[7], z[8]);
    let t53 = sum(z[0], z[3]);
    let t54 = sum(z[6], z[7]);
    let t55 = sum(z[16], z[17]);
    let t56 = sum(z[12], t48);
    let t57 = sum(t50, t53);
    let t58 = sum(z[4], t46);
    let t59 = sum(z[3], t54);
    let t60 = sum(t46, t57);
    let t61 = sum(z[14], t57);
    let t62 = sum(t52, t58);
    let t63 = sum(t49, t58);
    let t64 = sum(z[4], t59);
    let t65 = sum(t61, t62);
    let t66 = sum(z[1], t63);
    let s0 = sum(t59, t63);
    let n6 = negated(t62);
    let s6 = sum(t56, n6);
    let n7 = negated(t60);
    let s7 = sum(t48, n7);
    let t67 = sum(t64, t65);
    let s3 = sum(t53, t66);
    let s4 = sum(t51, t66);
    let s5 = sum(t47, t65);
    let n3 = negated(s3);
    let s1 = sum(t64, n3);
    let n2 = negated(t67);
    let s2 = sum(t55, n2);
    [s7, s6, s5, s4, s3, s2, s1, s0]
}

/// Replaces each byte by its S-box value, 5.1.1.
#[inline(always)]
pub(crate) fn substituted_planes(planes: &WidePlanes) -> WidePlanes
    ensures { (j i : ℕ) → j < 32 → i < 8 → byte_at result j i ≡ sbox (byte_at planes.now j i) }
{
    let firsts = first_sums(planes);
    let inverted = inverse_bits(&to_invert(&firsts));
    last_sums(&products(&inverted, &firsts))
}
