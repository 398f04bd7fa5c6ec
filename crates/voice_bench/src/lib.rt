// The voices as C calls them, for bench/ alone: a voice is its phase's number, its fade position and its position.
#![tactic(auto)]

ghost use Rattle.std.specs.Prelude.{◌≡◌, [], ◌∷◌, ◌+◌, ◌<◌, ◌≤◌, ◌^◌};
ghost use Rattle.sampler_voice.specs.inner.Room.{Room};
ghost use Rattle.sampler_voice.specs.Voices.{lent, frames, mix};
ghost use Rattle.voice_bench.specs.Numbered.{sides_of, voice_of};

use sampler_voice::{Channels, Phase, Source, Voice, Voices};

fn voice_of(kind: usize, i: usize, position: usize) -> Voice
    ensures { result ≡ voice_of kind i position }
{
    Voice {
        position,
        phase: Phase::numbered(kind as u64, i),
    }
}

// A voice over a piece. Returns its position after it. What C lends and counts stays as C names it.
#[unsafe(no_mangle)]
pub extern "C" fn voice_render(
    kind: usize,
    i: usize,
    p: usize,
    out: &mut [f32],
    n: usize,
    j: usize,
    k: usize,
    rec: &[f32],
    rn: usize,
    fade: &[f32],
    recording: usize,
    output: usize,
) -> usize
    requires output_room { Room output n out.old }
    requires recording_room { Room recording rn rec.now }
    requires within_output { j + k ≤ n }
    requires position_bound { p + k < 2 ^ 62 }
    ensures value { result ≡ (frames rec.now rn fade.now n (sides_of recording output) j k (lent (voice_of kind i p) out.old)).voice.position }
    ensures out_after { out.new ≡ (frames rec.now rn fade.now n (sides_of recording output) j k (lent (voice_of kind i p) out.old)).out }
{
    let source = Source {
        recording: rec,
        frames: rn,
        fade,
        channels: Channels { recording, output },
    };
    voice_of(kind, i, p).render(out, n, j, k, source).position
}

// Voice 0 fading out at i from p and voice 1 fading in at f from q, over a piece.
#[unsafe(no_mangle)]
pub extern "C" fn voices_render(
    i: usize,
    p: usize,
    f: usize,
    q: usize,
    out: &mut [f32],
    n: usize,
    j: usize,
    k: usize,
    rec: &[f32],
    rn: usize,
    fade: &[f32],
    recording: usize,
    output: usize,
)
    requires output_room { Room output n out.old }
    requires recording_room { Room recording rn rec.now }
    requires within_output { j + k ≤ n }
    requires position_bound { p + k < 2 ^ 62 }
    requires second_bound { q + k < 2 ^ 62 }
    ensures { out.new ≡ (mix rec.now rn fade.now n (sides_of recording output) j k (voice_of 3 i p ∷ voice_of 1 f q ∷ []) out.old).out }
{
    let source = Source {
        recording: rec,
        frames: rn,
        fade,
        channels: Channels { recording, output },
    };
    let voices = [voice_of(3, i, p), voice_of(1, f, q)];
    Voices { voices }.render(out, n, j, k, source);
}
