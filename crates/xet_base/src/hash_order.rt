//! The order of hashes, by words of eight bytes.
ghost use Rattle.std.specs.Prelude.{◌≡◌, ◌+◌, ◌<◌, ◌≤◌, All, drop, take};
ghost use Rattle.std.specs.Ordering.{nat_cmp};
ghost use Rattle.std.specs.Cmp.Lexicographic.{slice_cmp};
ghost use Rattle.xet_base.specs.Words.{number_of};

use std::cmp::Ordering;

/// How the bytes of two hashes compare: by the first that differs.
pub(crate) fn order(a: &[u8; 32], b: &[u8; 32]) -> Ordering
    ensures { result ≡ slice_cmp nat_cmp a.now b.now }
{
    let first = word_order(a, b, 0);
    if first.is_ne() {
        return first;
    }
    let second = word_order(a, b, 8);
    if second.is_ne() {
        return second;
    }
    let third = word_order(a, b, 16);
    if third.is_ne() {
        return third;
    }
    word_order(a, b, 24)
}

// How the eight bytes from a place on compare.
fn word_order(a: &[u8; 32], b: &[u8; 32], at: usize) -> Ordering
    requires { at + 8 ≤ 32 }
    ensures { result ≡ slice_cmp nat_cmp (take 8 (drop at a.now)) (take 8 (drop at b.now)) }
{
    word(a, at).cmp(&word(b, at))
}

// The number that the eight bytes from a place on write, the highest first.
fn word(bytes: &[u8; 32], at: usize) -> u64
    requires { at + 8 ≤ 32 }
    ensures value { result ≡ number_of 0 (take 8 (drop at bytes.now)) }
    ensures small { All (λ b. b < 256) (take 8 (drop at bytes.now)) }
{
    u64::from_be_bytes([
        bytes[at],
        bytes[at + 1],
        bytes[at + 2],
        bytes[at + 3],
        bytes[at + 4],
        bytes[at + 5],
        bytes[at + 6],
        bytes[at + 7],
    ])
}
