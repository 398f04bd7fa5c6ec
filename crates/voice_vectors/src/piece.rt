// A piece of the list: its buffers, its voice and what became of them.
ghost use Rattle.std.specs.Prelude.{◌^◌, ◌<◌, ◌≤◌};

use crate::row::Row;
use sampler_voice::{Channels, Phase, Source, Voice};

// The row's floats, to the entries from its place on.
pub fn set(entries: &mut [f32], row: Row) {
    for (entry, bits) in entries.iter_mut().skip(row.at).zip(row.words) {
        *entry = words::float(bits);
    }
}

// Whether the entries from the row's place on are its floats.
pub fn holds(entries: &[f32], row: Row) -> bool {
    entries
        .iter()
        .skip(row.at)
        .take(row.words.len())
        .map(|entry| words::float_bits(*entry))
        .eq(row.words)
}

// The voice that a row names.
fn voice_of(row: Row) -> Voice
    ensures { result.position < 2 ^ 32 }
{
    Voice {
        position: row.words[2] as usize,
        phase: Phase::numbered(row.words[0].into(), row.words[1] as usize),
    }
}

// Whether the voice is the row's; no phase has a number above 3.
pub fn is_voice(voice: Voice, row: Row) -> bool {
    row.words[0] <= 3 && voice == voice_of(row)
}

// Two channels, or else one.
fn two_or_one(told: usize) -> usize
    ensures low { 0 < result }
    ensures high { result ≤ 2 }
{
    if told == 2 { 2 } else { 1 }
}

// What the buffers of a piece hold.
#[derive(Drop)]
pub struct Buffers {
    pub recording: [f32; 128],
    pub fade: [f32; 16],
    pub output: [f32; 128],
}

impl Buffers {
    // The piece that the row asks for; one that the buffers have no room for is refused.
    pub fn render(&mut self, row: Row) -> Option<Voice> {
        let [_, _, _, frames, n, j, k, all] = row.words.map(|word| word as usize);
        if 64 < frames || 64 < n || n < j || n - j < k {
            return None;
        }
        let source = Source {
            recording: &self.recording,
            frames,
            fade: self.fade.get(..all)?,
            channels: Channels {
                recording: two_or_one(row.at / 16),
                output: two_or_one(row.at % 16),
            },
        };
        Some(voice_of(row).render(&mut self.output, n, j, k, source))
    }
}
