// The value of each part of a leg's bytes, well formed or not: each number where the layout has it, with what is no kind or
// phase taken for the first of them. `reading` has the tests, and stops at the first part that is malformed: with both in one
// pass a well-formed leg took up to twice as long.
ghost use Rattle.std.specs.Prelude.{◌≡◌, ◌<◌, ◌≤◌};
ghost use Rattle.leg_bytes.specs.Read.{time_at, setup_at, voice_at, active_of, points_at, player_at, kind_of, event_at, place_at, queue_at, read_leg};

use event_processor::Queue;
use sampler_event::{Event, Kind};
use sampler_player::{Player, Points, Setup};
use sampler_processor::Leg;
use sampler_voice::{Phase, Voice};
use timestamp::Timestamp;

pub fn time_at(bytes: &[u8], at: usize) -> Timestamp
    ensures { result ≡ time_at bytes.now at }
{
    sampler_event::time_from(words::number(bytes, at, 8))
}

pub fn setup_at(bytes: &[u8]) -> Setup
    ensures { result ≡ setup_at bytes.now }
{
    Setup {
        rate: words::number(bytes, 0, 4) as usize,
        channels: words::number(bytes, 4, 1) as usize,
        frames: words::number(bytes, 5, 4) as usize,
        fade: words::number(bytes, 9, 4) as usize,
    }
}

pub fn voice_at(bytes: &[u8], at: usize) -> Voice
    requires { at ≤ 490 }
    ensures { result ≡ (voice_at bytes.now at).voice }
{
    let kind = words::number(bytes, at, 1);
    let fade = words::number(bytes, at + 1, 8) as usize;
    Voice {
        phase: Phase::numbered(kind, fade),
        position: words::number(bytes, at + 9, 8) as usize,
    }
}

pub fn active_of(number: u64) -> Option<usize>
    ensures { result ≡ active_of number }
{
    let i = number.checked_sub(1)?;
    Some(i as usize)
}

pub fn points_at(bytes: &[u8]) -> Points
    ensures { result ≡ (points_at bytes.now 48).points }
{
    match words::number(bytes, 48, 1) {
        0 => Points::Absent,
        _ => Points::Between(time_at(bytes, 49), time_at(bytes, 57)),
    }
}

fn player_at(bytes: &[u8]) -> Player
    ensures { result ≡ (player_at bytes.now).player }
{
    let voices = [voice_at(bytes, 13), voice_at(bytes, 30)];
    Player {
        voices,
        active: active_of(words::number(bytes, 47, 1)),
        points: points_at(bytes),
        position: time_at(bytes, 65),
        start: time_at(bytes, 73),
        completed: words::number(bytes, 81, 8) as usize,
    }
}

fn kind_of(kind: u64, first: Timestamp, second: Timestamp) -> Kind
    ensures { result ≡ kind_of kind first second }
{
    match kind {
        2 => Kind::StartImmediate,
        3 => Kind::Stop,
        4 => Kind::EnableLoop(first, second),
        5 => Kind::CancelLoop,
        6 => Kind::CancelAll,
        _ => Kind::Start(first),
    }
}

// A place that is used.
pub fn event_at(bytes: &[u8], at: usize) -> Event
    requires { at ≤ 490 }
    ensures { result ≡ (event_at bytes.now at).event }
{
    let kind = words::number(bytes, at, 1);
    Event {
        time: time_at(bytes, at + 1),
        kind: kind_of(kind, time_at(bytes, at + 9), time_at(bytes, at + 17)),
    }
}

fn place_at(bytes: &[u8], i: usize) -> Event
    requires { i < 16 }
    ensures { result ≡ (place_at bytes.now i).event }
{
    if i < words::number(bytes, 89, 1) as usize {
        event_at(bytes, 90 + 25 * i)
    } else {
        Event::blank()
    }
}

fn queue_at(bytes: &[u8]) -> Queue
    ensures { result ≡ (queue_at bytes.now).queue }
{
    let mut events = [Event::blank(); 16];
    for (i, event) in events.iter_mut().enumerate() {
        *event = place_at(bytes, i);
    }
    Queue {
        events,
        count: words::number(bytes, 89, 1) as usize,
    }
}

#[cold]
#[inline(never)]
pub fn leg_at(bytes: &[u8]) -> Leg
    ensures { result ≡ (read_leg bytes.now).leg }
{
    Leg {
        setup: setup_at(bytes),
        player: player_at(bytes),
        queue: queue_at(bytes),
    }
}
