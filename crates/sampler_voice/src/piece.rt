// A piece of one voice: tight loops that stay in one phase, within the recording and the table. The
// recording's end and a fade's full first frame are settled before the loop.
ghost use Rattle.std.specs.Prelude.{◌≡◌, ◌+◌, ◌-◌, ◌<◌, ◌≤◌, ◌^◌, ℕ, length};
ghost use Rattle.sampler_voice.specs.inner.Room.{Room};
ghost use Rattle.sampler_voice.specs.Voices.{lent, heard, frames};
ghost use Rattle.sampler_voice.specs.inner.Run.{run, Sounds};

use super::sound::{fetch, put};
use crate::{Pair, Phase, Source, Voice};
use sampler_fade::{fade_in_value, fade_out_value};

// k frames of a voice that stays in one phase: a pair of the recording is heard as `sound` makes it of the frame's
// number and the pair. Past the recording's end nothing is added.
pub fn add_frames<F: Fn(usize, Pair) -> Pair>(
    out: &mut [f32],
    n: usize,
    j: usize,
    k: usize,
    source: Source,
    p: usize,
    sound: F,
)
    requires output_room { Room source.channels.output n out.old }
    requires within_output { j + k ≤ n }
    requires callable { (i : ℕ) (pair : Pair) → i < k → F.pre sound i pair }
    ensures { (phase : Phase) → Sounds source.entry.fade.now phase k (F.post sound) → out.new ≡ run source.entry.recording.now source.entry.frames source.entry.fade.now n source.entry.channels phase p j k out.old }
{
    let within = k.min(source.frames.saturating_sub(p));
    for i in 0..within {
        let pair = sound(i, fetch(source, p + i));
        put(out, n, source.channels, j + i, pair);
    }
}

// k frames of a voice that fades in from f on, within the table.
fn fade_in(out: &mut [f32], n: usize, j: usize, k: usize, source: Source, p: usize, f: usize)
    requires output_room { Room source.channels.output n out.old }
    requires within_output { j + k ≤ n }
    requires within_fade { k ≤ length source.fade.now - f }
    ensures { out.new ≡ run source.entry.recording.now source.entry.frames source.entry.fade.now n source.entry.channels (Phase.FadingIn f) p j k out.old }
{
    add_frames(out, n, j, k, source, p, |i, pair| {
        pair.scaled(fade_in_value(source.fade, f + i))
    });
}

// The same of one that fades out. A fade out at 0 is full: its entry is past the table.
fn fade_out(out: &mut [f32], n: usize, j: usize, k: usize, source: Source, p: usize, f: usize)
    requires output_room { Room source.channels.output n out.old }
    requires within_output { j + k ≤ n }
    requires within_fade { k ≤ length source.fade.now - f }
    requires position_bound { p + k < 2 ^ 62 }
    ensures { out.new ≡ run source.entry.recording.now source.entry.frames source.entry.fade.now n source.entry.channels (Phase.FadingOut f) p j k out.old }
{
    let full = if f == 0 { k.min(1) } else { 0 };
    add_frames(out, n, j, full, source, p, |_, pair| pair.scaled(1.0));
    add_frames(out, n, j + full, k - full, source, p + full, |i, pair| {
        pair.scaled(fade_out_value(source.fade, f + full + i))
    });
}

// k frames, from frame j of the output on, of a voice that fades in at i. A fade that is over takes no frame.
pub fn render_in(
    out: &mut [f32],
    n: usize,
    j: usize,
    k: usize,
    source: Source,
    p: usize,
    i: usize,
) -> Voice
    requires output_room { Room source.channels.output n out.old }
    requires within_output { j + k ≤ n }
    requires some_frames { 0 < k }
    requires position_bound { p + k < 2 ^ 62 }
    ensures { lent result out.new ≡ frames source.entry.recording.now source.entry.frames source.entry.fade.now n source.entry.channels j k (heard p (Phase.FadingIn i) out.old) }
{
    let left = source.fade.len().saturating_sub(i);
    let fading = k.min(left);
    fade_in(out, n, j, fading, source, p, i);
    add_frames(
        out,
        n,
        j + fading,
        k - fading,
        source,
        p + fading,
        |_, pair| pair,
    );
    let phase = if k < left {
        Phase::FadingIn(i + k)
    } else {
        Phase::Playing
    };
    Voice {
        position: p + k,
        phase,
    }
}

// The same of one that fades out at i.
pub fn render_out(
    out: &mut [f32],
    n: usize,
    j: usize,
    k: usize,
    source: Source,
    p: usize,
    i: usize,
) -> Voice
    requires output_room { Room source.channels.output n out.old }
    requires within_output { j + k ≤ n }
    requires some_frames { 0 < k }
    requires position_bound { p + k < 2 ^ 62 }
    ensures { lent result out.new ≡ frames source.entry.recording.now source.entry.frames source.entry.fade.now n source.entry.channels j k (heard p (Phase.FadingOut i) out.old) }
{
    let left = source.fade.len().saturating_sub(i);
    let fading = k.min(left);
    fade_out(out, n, j, fading, source, p, i);
    let phase = if k < left {
        Phase::FadingOut(i + k)
    } else {
        Phase::Stopped
    };
    Voice {
        position: p + fading,
        phase,
    }
}
