//! Lower-case hexadecimal digits, sixteen at a time.
ghost use Rattle.std.specs.Prelude.{◌≡◌, ◌++◌, ◌≤◌, drop, length, map, true, Ok};
ghost use Rattle.std.specs.List.{list_all};
ghost use Rattle.std.specs.Simd.Lanes.{mask_l};
ghost use Rattle.hex.specs.Hex.{decode_sized, encode_lower};
ghost use Rattle.ovl_inode.specs.Hexadecimal as hexadecimal;
ghost use Rattle.ovl_inode.specs.DigitLanes.{lane_value, lane_digit, block_bytes};

use std::simd::prelude::*;

// The lanes that hold a digit, a bit each.
#[inline(always)]
fn lower_lanes(lanes: u8x16) -> u64
    ensures { result ≡ mask_l (map hexadecimal.is_lower_digit lanes) }
{
    ((lanes.simd_ge(u8x16::splat(b'0')) & lanes.simd_le(u8x16::splat(b'9')))
        | (lanes.simd_ge(u8x16::splat(b'a')) & lanes.simd_le(u8x16::splat(b'f')))).to_bitmask()
}

#[inline(always)]
fn is_lower_block(lanes: u8x16) -> bool
    ensures { result ≡ list_all hexadecimal.is_lower_digit lanes }
{
    lower_lanes(lanes) == 0xffff
}

#[inline(always)]
fn is_lower_digit(byte: u8) -> bool
    ensures { result ≡ hexadecimal.is_lower_digit byte }
{
    ((b'0' <= byte) & (byte <= b'9')) | ((b'a' <= byte) & (byte <= b'f'))
}

// Whether each byte from a place on is one of `0` to `9` and `a` to `f`, a byte at a time.
#[inline(always)]
fn are_lower_tail(text: &[u8], from: usize) -> bool
    requires { from ≤ length text.now }
    ensures { result ≡ list_all hexadecimal.is_lower_digit (drop from text.now) }
{
    let mut are = true;
    let mut i = text.len();
    while i > from {
        i -= 1;
        are = is_lower_digit(text[i]) & are;
    }
    are
}

/// Whether each byte is one of `0` to `9` and `a` to `f`.
pub fn are_lower_digits(text: &[u8]) -> bool
    ensures { result ≡ list_all hexadecimal.is_lower_digit text.now }
{
    let mut are = true;
    let mut place = 0;
    while text.len() - place >= 16 {
        are = is_lower_block(u8x16::from_slice(&text[place..])) & are;
        place += 16;
    }
    are_lower_tail(text, place) & are
}

// What each digit is worth.
#[inline(always)]
fn values(lanes: u8x16) -> u8x16
    ensures { result ≡ map lane_value lanes }
{
    lanes.simd_le(u8x16::splat(b'9')).select(
        lanes - u8x16::splat(b'0'),
        lanes - u8x16::splat(b'a' - 10),
    )
}

// The bytes of 32 digits.
#[inline(always)]
fn pair_block(first: u8x16, second: u8x16) -> u8x16
    ensures { result ≡ block_bytes (first ++ second) }
{
    let high = first.shuffle(
        second,
        [0, 2, 4, 6, 8, 10, 12, 14, 16, 18, 20, 22, 24, 26, 28, 30],
    );
    let low = first.shuffle(
        second,
        [1, 3, 5, 7, 9, 11, 13, 15, 17, 19, 21, 23, 25, 27, 29, 31],
    );
    values(high) * u8x16::splat(16) + values(low)
}

/// The 32 bytes that 64 digits spell.
pub(crate) fn bytes_of_digits(digits: &[u8]) -> [u8; 32]
    requires count { length digits.now ≡ 64 }
    requires lower { list_all hexadecimal.is_lower_digit digits.now ≡ true }
    ensures { decode_sized digits.now 32 ≡ Ok result }
{
    let front = pair_block(
        u8x16::from_slice(&digits[..]),
        u8x16::from_slice(&digits[16..]),
    );
    let back = pair_block(
        u8x16::from_slice(&digits[32..]),
        u8x16::from_slice(&digits[48..]),
    );
    let mut bytes = [0; 32];
    front.copy_to_slice(&mut bytes[..]);
    back.copy_to_slice(&mut bytes[16..]);
    bytes
}

// The digits of numbers below 16.
#[inline(always)]
fn digits(values: u8x32) -> u8x32
    ensures { result ≡ map lane_digit values }
{
    values
        + values
            .simd_le(u8x32::splat(9))
            .select(u8x32::splat(b'0'), u8x32::splat(b'a' - 10))
}

/// The 64 digits of 32 bytes.
pub(crate) fn digits_of_bytes(bytes: &[u8; 32]) -> [u8; 64]
    ensures { result ≡ encode_lower bytes.now }
{
    let lanes = u8x32::from_array(*bytes);
    let high = digits(lanes >> u8x32::splat(4));
    let low = digits(lanes & u8x32::splat(15));
    let pairs = high.shuffle(
        low,
        [
            0, 32, 1, 33, 2, 34, 3, 35, 4, 36, 5, 37, 6, 38, 7, 39, 8, 40, 9, 41, 10, 42, 11, 43,
            12, 44, 13, 45, 14, 46, 15, 47, 16, 48, 17, 49, 18, 50, 19, 51, 20, 52, 21, 53, 22, 54,
            23, 55, 24, 56, 25, 57, 26, 58, 27, 59, 28, 60, 29, 61, 30, 62, 31, 63,
        ],
    );
    pairs.to_array()
}
