// Signed numbers and floats as the bits that a file has for them, and numbers as hex digits and bytes.
// The bits as a signed number are `sampler_event::as_i64`.
#![tactic(auto)]

ghost use Rattle.std.specs.Prelude.{◌≡◌, ◌-◌, ◌%◌, ◌^◌, ◌≤◌, ◌<◌, min, take, drop};
ghost use Rattle.std.specs.Float.{binary32, binary64};
ghost use Rattle.std.specs.Float.Ieee.{of_bits, to_bits};
ghost use Rattle.std.proofs.lemmas.List.Edits.{sets};
ghost use Rattle.sampler_event.specs.Record.{little, as_i64};
ghost use Rattle.words.specs.Digits.{digit_of, hex_of, bytes_of};

use std::num::{
    f32_from_bits_with_nan, f32_to_bits_with_nan, f64_from_bits_with_nan, f64_to_bits_with_nan,
};

// Two's complement.
pub fn signed_bits(z: i64) -> u64
    ensures { as_i64 result ≡ z }
{
    z.cast_unsigned()
}

// ---- floats: each a call of std's own for its width, so that one of both widths would be no plainer

// Every NaN is one NaN.
#[tactic(auto, using(crate::proofs::Floats::reads_nan))]
pub fn float(bits: u32) -> f32
    ensures { result ≡ of_bits binary32 bits }
{
    f32_from_bits_with_nan(bits)
}

// A NaN is 0x7fc00000.
pub fn float_bits(x: f32) -> u32
    ensures { result ≡ to_bits binary32 x }
{
    f32_to_bits_with_nan(x)
}

// Every NaN is one NaN.
pub fn double(bits: u64) -> f64
    ensures { result ≡ of_bits binary64 bits }
{
    f64_from_bits_with_nan(bits)
}

// A NaN is 0x7ff8000000000000.
pub fn double_bits(x: f64) -> u64
    ensures { result ≡ to_bits binary64 x }
{
    f64_to_bits_with_nan(x)
}

// ---- digits and bytes

// A lower-case hex digit's number. Any other byte counts as 0.
fn digit(byte: u8) -> u64
    ensures { result ≡ digit_of byte }
{
    match byte {
        b'0'..=b'9' => u64::from(byte - b'0'),
        b'a'..=b'f' => u64::from(byte - b'a') + 10,
        _ => 0,
    }
}

// The n bytes from `at` on. Past the end there is none, so that no caller of what follows has to show that they lie within.
fn part(bytes: &[u8], at: usize, n: usize) -> &[u8]
    ensures { result.now ≡ take n (drop at bytes.now) }
{
    let rest = &bytes[at.min(bytes.len())..];
    &rest[..n.min(rest.len())]
}

// The number of n hex digits from `at` on, of which 64 bits are kept. Past the end there is no digit.
pub fn hex(text: &[u8], at: usize, n: usize) -> u64
    ensures { result ≡ hex_of (take n (drop at text.now)) % 2 ^ 64 }
{
    part(text, at, n).iter().fold(
        0,
        |number, &byte| number.wrapping_mul(16).wrapping_add(digit(byte)),
    )
}

// The number's n lowest bytes, the lowest first, stored from `at` on. What lies past the end is lost.
pub fn put(bytes: &mut [u8], at: usize, n: usize, number: u64)
    ensures { bytes.new ≡ sets bytes.old at (bytes_of n number) }
{
    let end = at.saturating_add(n).min(bytes.len());
    let mut left = number;
    for i in at..end {
        bytes[i] = (left % 256) as u8;
        left /= 256;
    }
}

// The number of n bytes from `at` on, the lowest first. Past the end there is none. That n is at most 8, here and where
// numbers are read and written, stays a clause: n is told at each call, mostly as a literal. So does the bound of what is read.
pub fn number(bytes: &[u8], at: usize, n: usize) -> u64
    requires { n ≤ 8 }
    ensures value { result ≡ little (take n (drop at bytes.now)) }
    ensures bound { result < 256 ^ n }
{
    sampler_event::little(part(bytes, at, n))
}
