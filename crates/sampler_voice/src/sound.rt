// One frame's pair, from the recording to the output.
ghost use Rattle.std.specs.Prelude.{◌≡◌, ◌<◌};
ghost use Rattle.sampler_voice.specs.Sound.{cleaned, fetched, added};
ghost use Rattle.sampler_voice.specs.inner.Room.{Room};

use crate::{Channels, Pair, Source};

// An entry as it counts: a bad one is 0.0, and a NaN fails either test. `sampler_fade` has its like for a table.
#[tactic(auto, unfolding(crate::specs::Sound::cleaned))]
fn clean(x: f32) -> f32
    ensures { result ≡ cleaned x }
{
    if -16.0 <= x && x <= 16.0 { x } else { 0.0 }
}

#[tactic(auto, using(crate::proofs::Room::fetched_two, crate::proofs::Room::fetched_one))]
pub fn fetch(source: Source, p: usize) -> Pair
    requires { p < source.frames }
    ensures { result ≡ fetched source.entry.recording.now source.entry.frames source.entry.channels p }
{
    let left = clean(source.recording[p]);
    let right = if source.channels.both() {
        clean(source.recording[source.frames + p])
    } else {
        0.0
    };
    Pair { left, right }
}

#[tactic(auto, using(crate::proofs::Room::added_two, crate::proofs::Room::added_one))]
pub fn put(out: &mut [f32], n: usize, channels: Channels, j: usize, p: Pair)
    requires output_room { Room channels.output n out.old }
    requires within_output { j < n }
    ensures { out.new ≡ added n channels j p out.old }
{
    out[j] += p.left;
    if channels.both() {
        out[n + j] += p.right;
    }
}
