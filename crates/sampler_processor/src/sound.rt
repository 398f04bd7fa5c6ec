// "A leg is damaged unless" (14), of what plays and of the queue, once the kept sizes are in range.
ghost use Rattle.std.specs.Prelude.{◌≡◌, ◌&&◌, ◌^◌, leb};
ghost use Rattle.std.specs.Int.Signed.{le_z};
ghost use Rattle.sampler_voice.specs.Voices.{is_held, fade_good};
ghost use Rattle.sampler_player.specs.Sound.{active_good, voices_good, points_good, loop_good, player_good};
ghost use Rattle.sampler_processor.specs.Numbers.{queue_good};

use crate::numbers::Sizes;
use event_processor::Queue;
use sampler_player::{Player, Points};
use sampler_voice::{Phase, Voice};

// ---- the voices

fn is_held(v: Voice) -> bool
    ensures { result ≡ is_held v.phase }
{
    matches!(v.phase, Phase::FadingIn(_) | Phase::Playing)
}

fn active_good(active: Option<usize>, voices: [Voice; 2]) -> bool
    ensures { result ≡ active_good active voices }
{
    let [v, w] = voices;
    let first = is_held(v);
    let second = is_held(w);
    match active {
        None => !first & !second,
        Some(0) => first & !second,
        Some(1) => !first & second,
        Some(_) => false,
    }
}

// The fade positions that there are: 0, and up to F.
fn fade_good(phase: Phase, fade: usize) -> bool
    ensures { result ≡ fade_good fade phase }
{
    match phase {
        Phase::FadingIn(i) | Phase::FadingOut(i) => i < fade.max(1),
        Phase::Stopped | Phase::Playing => true,
    }
}

fn voice_good(v: Voice, fade: usize) -> bool
    ensures { result ≡ fade_good fade v.phase && leb v.position (2 ^ 40) }
{
    fade_good(v.phase, fade) & (v.position <= 1099511627776)
}

fn voices_good(voices: [Voice; 2], fade: usize) -> bool
    ensures { result ≡ voices_good fade voices }
{
    let [v, w] = voices;
    voice_good(v, fade) & voice_good(w, fade)
}

// ---- what plays

// 11 and then 12, which asks for points that pass 11.
fn points_good(points: Points, sizes: Sizes) -> bool
    ensures { result ≡ points_good sizes.setup points }
{
    match points {
        Points::Absent => true,
        Points::Between(from, end) => {
            !sampler_event::place_bad(from)
                && !sampler_event::place_bad(end)
                && !sampler_event::loop_short(from, end, sizes.limits())
        }
    }
}

fn loop_good(p: Player, sizes: Sizes) -> bool
    ensures { result ≡ loop_good sizes.setup p }
{
    let begins = sampler_event::within(p.start, 0, 4398046511104);
    (p.completed <= 134217728) & (begins & points_good(p.points, sizes))
}

#[tactic(auto, unfolding(sampler_player::specs::Sound::player_good))]
pub fn player_good(p: Player, sizes: Sizes) -> bool
    ensures { result ≡ player_good sizes.setup p }
{
    let heard = active_good(p.active, p.voices) & voices_good(p.voices, sizes.setup.fade);
    let stands = sampler_event::within(p.position, -1048576, 562949953421312);
    heard & (stands & loop_good(p, sizes))
}

// ---- the queue

// Each event that waits is admissible, and none is earlier than the one before it: both in one pass. The queue is lent,
// so that it is not copied to be asked.
pub fn queue_good(queue: &Queue, sizes: Sizes) -> bool
    ensures { result ≡ queue_good sizes.setup queue.now }
{
    if 16 < queue.count {
        return false;
    }
    let limits = sizes.limits();
    let mut last = queue.events[0].time;
    for event in &queue.events[..queue.count] {
        if !event.admissible(limits) || event.time.is_before(last) {
            return false;
        }
        last = event.time;
    }
    true
}
