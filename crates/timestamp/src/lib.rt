// timestamp.rs: time as a signed number of units of 2^-32 seconds, the Rust's `I32F32`, and its
// conversions. Every method is total: where document 01 refuses, the answer is an `Err`, and `told` has its number.
// The free functions at the end are T, S and S's two roundings, for the layers above: they ask for a
// rate in range, and the layers call nothing else to go between times and frames.
#![tactic(auto)]

ghost use Rattle.std.specs.Prelude.{◌≡◌, ◌*◌, ◌^◌, ◌≤◌, false, T, pos, neg_ℤ, int_lt};
ghost use Rattle.std.specs.Float.Ieee as Ieee;
ghost use Rattle.std.specs.Float.{fin};
ghost use Rattle.std.specs.Float.Ieee.Positive.{positive, num, den};
ghost use Rattle.std.specs.Float.Ieee.Nearest.{closest};
ghost use Rattle.std.specs.Float.Ieee.Scale.{finite};
ghost use Rattle.timestamp.specs.declared.Timestamp.{Timestamp};
ghost use Rattle.timestamp.specs.Time.{seconds, frames_of, floor_of, round_of, frame_at, frame_near, time_of};
ghost use Rattle.timestamp.specs.Answer.{told, told_float, order, minus, plus, from_seconds, from_samples, from_beats, as_samples, as_beats, moved_by, incremented_by_samples, incremented_by_seconds, incremented_by_beats};

use laws::Refusal;
use std::cmp::Ordering;

mod rate;

pub use rate::Rate;

#[derive(Clone, Copy, Debug, PartialEq, Eq, PartialOrd, Ord)]
pub struct Timestamp {
    pub bits: i64,
}

// ---- floats and whole numbers

// t units as seconds: the nearest f64. The division by a power of two rounds nothing more.
fn to_seconds(t: i64) -> f64
    ensures { result ≡ seconds t }
{
    std::num::nearest_i64_to_f64(t) / 4294967296.0
}

// z, which is above zero, rounded to the nearest whole number, a tie to the even one. Below 2^52 the
// sum with 2^52 is that rounding, since from there to 2^53 an f64 is a whole number. From 2^52 on z
// is whole. With std's `round_ties_even` in its place T takes some 1.6 times as long.
fn nearest_whole(z: f64) -> u64
    requires above_zero { T (positive z) }
    requires below_limit { T (Ieee.lt z (fin false 1 (pos 64))) }
    ensures { result ≡ closest (num z) (den z) }
{
    if z < 4503599627370496.0 {
        std::num::truncating_f64_to_u64(z + 4503599627370496.0) - 4503599627370496
    } else {
        std::num::truncating_f64_to_u64(z)
    }
}

// a seconds, above zero and at most 2^31, in units. The product is exact.
fn to_units(a: f64) -> u64
    requires above_zero { T (positive a) }
    requires below_limit { T (Ieee.le a (fin false 1 (pos 31))) }
    ensures { result ≡ closest (num a * 2 ^ 32) (den a) }
{
    nearest_whole(a * 4294967296.0)
}

// -n. The cast of 2^63 is -2^63, whose negation wraps to itself.
fn negative(n: u64) -> i64
    requires { n ≤ 2 ^ 63 }
    ensures { result ≡ neg_ℤ (pos n) }
{
    n.cast_signed().wrapping_neg()
}

// A number of frames below 2^64 without its fraction; 0 for a negative one: document 01's, and std's cast asks for more than -1.
fn whole_part(x: f64) -> usize
    requires { T (Ieee.lt x (fin false 1 (pos 64))) }
    ensures { result ≡ floor_of x }
{
    if x > -1.0 {
        std::num::truncating_f64_to_u64(x) as usize
    } else {
        0
    }
}

// A number of frames below 2^52 rounded, a half away from zero; 0 for a negative one. Twice x is exact, and its whole
// part halved upwards is the rounding. With std's `round` in its place it takes more than twice as long.
fn half_away(x: f64) -> usize
    requires { T (Ieee.lt x (fin false 1 (pos 52))) }
    ensures { result ≡ round_of x }
{
    let u = whole_part(x * 2.0);
    u / 2 + u % 2
}

// Whether x is finite and above zero.
fn above_zero(x: f64) -> bool
    ensures { result ≡ positive x }
{
    x > 0.0 && x.is_finite()
}

// ---- timestamp.rs

impl Timestamp {
    // Beside the derived one, whose clauses are its trait's: the promise is `order`.
    pub fn cmp(self, other: Timestamp) -> Ordering
        ensures { result ≡ order self.bits other.bits }
    {
        self.bits.cmp(&other.bits)
    }

    // rawdio's name for the derived order's `<`.
    pub fn is_before(self, other: Timestamp) -> bool
        ensures { result ≡ int_lt self.bits other.bits }
    {
        self < other
    }

    // This and the next have rawdio's names, each a call of std's own for its sign.
    pub fn sub(self, other: Timestamp) -> Result<Timestamp, Refusal>
        ensures { told result ≡ minus self.bits other.bits }
    {
        let bits = self.bits.checked_sub(other.bits).ok_or(Refusal::NoResult)?;
        Ok(Timestamp { bits })
    }

    pub fn add(self, other: Timestamp) -> Result<Timestamp, Refusal>
        ensures { told result ≡ plus self.bits other.bits }
    {
        let bits = self.bits.checked_add(other.bits).ok_or(Refusal::NoResult)?;
        Ok(Timestamp { bits })
    }

    pub fn zero() -> Timestamp
        ensures { result.bits ≡ pos 0 }
    {
        Timestamp { bits: 0 }
    }

    // This and the next have rawdio's names, with the bits as their promise: a `From` would have no clause of its own.
    pub fn from_raw_i64(raw_value: i64) -> Timestamp
        ensures { result.bits ≡ raw_value }
    {
        Timestamp { bits: raw_value }
    }

    pub fn as_raw_i64(self) -> i64
        ensures { result ≡ self.bits }
    {
        self.bits
    }

    pub fn from_seconds(y: f64) -> Result<Timestamp, Refusal>
        ensures { told result ≡ from_seconds y }
    {
        if y > 0.0 {
            if y < 2147483648.0 {
                let n = to_units(y);
                return Ok(Timestamp { bits: n as i64 });
            }
        } else if y < 0.0 {
            if y >= -2147483648.0 {
                let n = negative(to_units(-y));
                return Ok(Timestamp { bits: n });
            }
        } else if !y.is_nan() {
            return Ok(Timestamp { bits: 0 });
        }
        Err(Refusal::NoResult)
    }

    #[tactic(auto, unfolding(crate::specs::Answer::from_samples))]
    pub fn from_samples(samples: f64, rate: usize) -> Result<Timestamp, Refusal>
        ensures { told result ≡ from_samples samples rate }
    {
        let rate = Rate::try_from(rate)?;
        Timestamp::from_seconds(samples / (rate.hertz as f64))
    }

    pub fn from_beats(beats: f64, tempo: f64) -> Result<Timestamp, Refusal>
        ensures { told result ≡ from_beats beats tempo }
    {
        if !above_zero(tempo) {
            return Err(Refusal::NoResult);
        }
        Timestamp::from_seconds(beats / (tempo / 60.0))
    }

    pub fn as_seconds(self) -> f64
        ensures { result ≡ seconds self.bits }
    {
        to_seconds(self.bits)
    }

    #[tactic(auto, unfolding(crate::specs::Answer::as_samples))]
    pub fn as_samples(self, rate: usize) -> Result<f64, Refusal>
        ensures { told_float result ≡ as_samples self.bits rate }
    {
        let rate = Rate::try_from(rate)?;
        Ok(frames_of(self, rate.hertz))
    }

    pub fn as_beats(self, tempo: f64) -> Result<f64, Refusal>
        ensures { told_float result ≡ as_beats self.bits tempo }
    {
        if !above_zero(tempo) {
            return Err(Refusal::NoResult);
        }
        let beats = to_seconds(self.bits) * (tempo / 60.0);
        if !beats.is_finite() {
            return Err(Refusal::NoResult);
        }
        Ok(beats)
    }

    #[tactic(auto, unfolding(crate::specs::Answer::incremented_by_samples))]
    pub fn incremented_by_samples(self, count: usize, rate: usize) -> Result<Timestamp, Refusal>
        ensures { told result ≡ incremented_by_samples self.bits count rate }
    {
        let frames = std::num::nearest_usize_to_f64(count);
        self.add(Timestamp::from_samples(frames, rate)?)
    }

    #[tactic(auto, unfolding(crate::specs::Answer::incremented_by_seconds))]
    pub fn incremented_by_seconds(self, y: f64) -> Result<Timestamp, Refusal>
        ensures { told result ≡ incremented_by_seconds self.bits y }
    {
        self.add(Timestamp::from_seconds(y)?)
    }

    #[tactic(auto, unfolding(crate::specs::Answer::incremented_by_beats))]
    pub fn incremented_by_beats(self, beats: f64, tempo: f64) -> Result<Timestamp, Refusal>
        ensures { told result ≡ incremented_by_beats self.bits beats tempo }
    {
        self.add(Timestamp::from_beats(beats, tempo)?)
    }
}

// ---- T, S and S's roundings, for the layers above

// T of a whole number of frames.
pub fn time_of(frames: usize, rate: Rate) -> Timestamp
    requires { frames ≤ 2 ^ 40 }
    ensures { result.bits ≡ time_of rate.hertz frames }
{
    Timestamp::from_seconds((frames as f64) / (rate.hertz as f64)).unwrap()
}

// S. A rate is a number here and below: a `Rate` would ask for 8,000 too, which these never did.
pub fn frames_of(t: Timestamp, rate: usize) -> f64
    requires { rate ≤ 96000 }
    ensures { result ≡ frames_of rate t.bits }
{
    to_seconds(t.bits) * (rate as f64)
}

// The floor of S. This and the next are rawdio's two roundings, a line each with its own promise.
pub fn frame_at(t: Timestamp, rate: usize) -> usize
    requires { rate ≤ 96000 }
    ensures { result ≡ frame_at rate t.bits }
{
    whole_part(frames_of(t, rate))
}

// Round S.
pub fn frame_near(t: Timestamp, rate: usize) -> usize
    requires { rate ≤ 96000 }
    ensures { result ≡ frame_near rate t.bits }
{
    half_away(frames_of(t, rate))
}
