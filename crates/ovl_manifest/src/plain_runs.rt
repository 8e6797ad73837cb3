//! Passing over plain bytes of a string, sixteen at a time.
ghost use Rattle.std.specs.Prelude.{◌≡◌, ◌≤◌, ◌<◌, ℕ, false, length, map, slice_index, take, true};
ghost use Rattle.std.specs.Simd.Lanes.{mask_l};
ghost use Rattle.json.specs.Print.{escape};
ghost use Rattle.json.specs.Run.{is_stop};

use std::simd::prelude::*;

// The lanes at which a string stops, a bit each.
#[inline(always)]
fn stops(lanes: u8x16) -> u64
    ensures { result ≡ mask_l (map is_stop lanes) }
{
    (lanes.simd_eq(u8x16::splat(b'"'))
        | lanes.simd_eq(u8x16::splat(b'\\'))
        | lanes.simd_lt(u8x16::splat(b' '))).to_bitmask()
}

// As `plain_length`, from a place on, a byte at a time.
#[inline(always)]
fn plain_tail(bytes: &[u8], from: usize) -> usize
    requires within { from ≤ length bytes.now }
    requires run { (k : ℕ) → k < from → is_stop (slice_index bytes.now k) ≡ false }
    ensures within { result ≤ length bytes.now }
    ensures run { (k : ℕ) → k < result → is_stop (slice_index bytes.now k) ≡ false }
    ensures stopped { result < length bytes.now → is_stop (slice_index bytes.now result) ≡ true }
{
    let mut place = from;
    while place < bytes.len()
        && bytes[place] != b'"'
        && bytes[place] != b'\\'
        && bytes[place] >= b' '
    {
        place += 1;
    }
    place
}

/// How many bytes come before the first that can't be in a string unescaped, or that ends it.
pub(crate) fn plain_length(bytes: &[u8]) -> usize
    ensures within { result ≤ length bytes.now }
    ensures run { (k : ℕ) → k < result → is_stop (slice_index bytes.now k) ≡ false }
    ensures stopped { result < length bytes.now → is_stop (slice_index bytes.now result) ≡ true }
    ensures plain { escape (take result bytes.now) ≡ take result bytes.now }
{
    let mut place = 0;
    while bytes.len() - place >= 16 {
        let found = stops(u8x16::from_slice(&bytes[place..]));
        if found != 0 {
            return place + found.trailing_zeros() as usize;
        }
        place += 16;
    }
    plain_tail(bytes, place)
}
