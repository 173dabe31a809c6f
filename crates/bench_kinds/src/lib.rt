// The arithmetic of the kinds over slices, exported for the benchmark that compares it with plain Rust.
#![tactic(auto)]

use bits::Bits;
use residue::Residue;
use ring::Kind;
use truncated::{Polynomial, Truncated};

// b[i] = f(a[i], b[i])
fn merge<E: Copy, F: Fn(E, E) -> E>(a: &[E], b: &mut [E], f: F)
    requires { F.IsAlwaysCallable f }
{
    let n = a.len().min(b.len());
    for i in 0..n {
        b[i] = f(a[i], b[i]);
    }
}

// b[i] = a unit part of a[i]; the sum of the valuations
fn split_all<K: Kind>(kind: K, a: &[K::Elem], b: &mut [K::Elem]) -> usize {
    let mut total = 0usize;
    let n = a.len().min(b.len());
    for i in 0..n {
        let (v, u) = kind.split(a[i]);
        total = total.wrapping_add(v);
        b[i] = u;
    }
    total
}

// a[0] × b[0] + a[1] × b[1] + ..
fn dot<K: Kind>(kind: &K, a: &[K::Elem], b: &[K::Elem]) -> K::Elem {
    let mut sum = kind.zero();
    let n = a.len().min(b.len());
    for i in 0..n {
        sum = kind.add(sum, kind.mul(a[i], b[i]));
    }
    sum
}

// The dot product so many times, each put into b.
fn dots<K: Kind>(kind: K, a: &[K::Elem], b: &mut [K::Elem], times: usize) {
    for i in 0..times {
        let sum = dot(&kind, a, b);
        if b.len() > 0 {
            b[i % b.len()] = sum;
        }
    }
}

#[unsafe(no_mangle)]
pub extern "C" fn residue_add(base: u32, depth: usize, a: &[u32], b: &mut [u32]) {
    if let Ok(kind) = Residue::new(base, depth) {
        merge(a, b, |x, y| kind.add(x, y));
    }
}

#[unsafe(no_mangle)]
pub extern "C" fn residue_mul(base: u32, depth: usize, a: &[u32], b: &mut [u32]) {
    if let Ok(kind) = Residue::new(base, depth) {
        merge(a, b, |x, y| kind.mul(x, y));
    }
}

#[unsafe(no_mangle)]
pub extern "C" fn residue_split(base: u32, depth: usize, a: &[u32], b: &mut [u32]) -> usize {
    Residue::new(base, depth).map_or(0, |kind| split_all(kind, a, b))
}

#[unsafe(no_mangle)]
pub extern "C" fn residue_dot(base: u32, depth: usize, a: &[u32], b: &mut [u32], times: usize) {
    if let Ok(kind) = Residue::new(base, depth) {
        dots(kind, a, b, times);
    }
}

#[unsafe(no_mangle)]
pub extern "C" fn truncated_add(base: u32, depth: usize, a: &[Polynomial], b: &mut [Polynomial]) {
    if let Ok(kind) = Truncated::new(base, depth) {
        merge(a, b, |x, y| kind.add(x, y));
    }
}

#[unsafe(no_mangle)]
pub extern "C" fn truncated_mul(base: u32, depth: usize, a: &[Polynomial], b: &mut [Polynomial]) {
    if let Ok(kind) = Truncated::new(base, depth) {
        merge(a, b, |x, y| kind.mul(x, y));
    }
}

#[unsafe(no_mangle)]
pub extern "C" fn truncated_split(
    base: u32,
    depth: usize,
    a: &[Polynomial],
    b: &mut [Polynomial],
) -> usize {
    Truncated::new(base, depth).map_or(0, |kind| split_all(kind, a, b))
}

#[unsafe(no_mangle)]
pub extern "C" fn truncated_dot(
    base: u32,
    depth: usize,
    a: &[Polynomial],
    b: &mut [Polynomial],
    times: usize,
) {
    if let Ok(kind) = Truncated::new(base, depth) {
        dots(kind, a, b, times);
    }
}

#[unsafe(no_mangle)]
pub extern "C" fn bits_add(base: u32, depth: usize, a: &[u32], b: &mut [u32]) {
    if let Ok(kind) = Bits::new(base, depth) {
        merge(a, b, |x, y| kind.add(x, y));
    }
}

#[unsafe(no_mangle)]
pub extern "C" fn bits_mul(base: u32, depth: usize, a: &[u32], b: &mut [u32]) {
    if let Ok(kind) = Bits::new(base, depth) {
        merge(a, b, |x, y| kind.mul(x, y));
    }
}

#[unsafe(no_mangle)]
pub extern "C" fn bits_split(base: u32, depth: usize, a: &[u32], b: &mut [u32]) -> usize {
    Bits::new(base, depth).map_or(0, |kind| split_all(kind, a, b))
}

#[unsafe(no_mangle)]
pub extern "C" fn bits_dot(base: u32, depth: usize, a: &[u32], b: &mut [u32], times: usize) {
    if let Ok(kind) = Bits::new(base, depth) {
        dots(kind, a, b, times);
    }
}
