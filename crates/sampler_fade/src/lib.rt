// sampler_fade.rs: the fade's length, its two tables as constants, and the entry at a position. The Rust's
// `Fade` owns a vector; here a table is a slice that the caller lends, and its length is F.
#![tactic(auto)]

ghost use Rattle.std.specs.Prelude.{◌≡◌, ℕ, ◌<◌, ◌≤◌, length, get_or};
ghost use Rattle.timestamp.specs.Time.{fade_length};
ghost use Rattle.sampler_fade.specs.Bits.{bits48000, bits8000};
ghost use Rattle.sampler_fade.specs.Entry.{table_of, cleaned_fade, fade_in, fade_out};
ghost use Rattle.sampler_fade.specs.FadeRule.{FadeRule};

mod tables;

// ---- the tables

// The float of each pattern. Below the infinity's, no pattern is a NaN's: with a test for one at each a table takes some
// four times as long. A slice and no array of N: what a call asks is then plain to see.
fn fill(table: &mut [f32], bits: &[u32])
    requires same_length { length table.old ≡ length bits.now }
    requires below_infinity { (i : ℕ) → get_or bits.now i 0 < 0x7f80_0000 }
    ensures { table.new ≡ table_of bits.now }
{
    for (i, pattern) in bits.iter().enumerate() {
        table[i] = f32::from_bits(*pattern);
    }
}

// ---- sampler_fade.rs

// F for a rate: a twentieth of it, rounded up.
pub fn length(rate: usize) -> usize
    ensures { result ≡ fade_length rate }
{
    rate.div_ceil(20)
}

// The table of 48,000 frames a second. It keeps document 01's rule of fade tables.
pub fn table_48000() -> [f32; 2400]
    ensures value { result ≡ table_of bits48000 }
    ensures fade_rule { FadeRule result }
{
    let mut table = [0.0; 2400];
    fill(&mut table, &tables::BITS_48000);
    table
}

// The same of 8,000.
pub fn table_8000() -> [f32; 400]
    ensures value { result ≡ table_of bits8000 }
    ensures fade_rule { FadeRule result }
{
    let mut table = [0.0; 400];
    fill(&mut table, &tables::BITS_8000);
    table
}

// An entry as it counts: a bad one is 1.0, and a NaN fails either test. `sampler_voice` has its like for a
// recording: a function for both would be this line again, with its three numbers as parameters.
#[tactic(auto, unfolding(crate::specs::Entry::cleaned_fade))]
fn clean(x: f32) -> f32
    ensures { result ≡ cleaned_fade x }
{
    if 0.0 <= x && x <= 1.0 { x } else { 1.0 }
}

// ---- the lookups, within the table, so that the voice's loops never test for its end. Of the entries past it, each
// 1.0, the voice needs one, of a fade out at 0, and looks none up.

// What a fade in takes at a position: its entry.
#[tactic(auto, using(crate::proofs::Entry::inside))]
pub fn fade_in_value(fade: &[f32], position: usize) -> f32
    requires { position < length fade.now }
    ensures { result ≡ fade_in fade.now position }
{
    clean(fade[position])
}

// What a fade out takes: the entry as far from the table's end.
#[tactic(auto, using(crate::proofs::Entry::inside))]
pub fn fade_out_value(fade: &[f32], position: usize) -> f32
    requires position_nonzero { 0 < position }
    requires position_in_bounds { position ≤ length fade.now }
    ensures { result ≡ fade_out fade.now position }
{
    clean(fade[fade.len() - position])
}
