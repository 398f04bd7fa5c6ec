// A leg as bytes. Each function stores one part of it at its place. `at` is at most 490 in the contracts, so that no place
// passes 64 bits: a slice from there on would ask for its length instead.
// Numbers by `as`: 64 bits are a usize's, and std has no `From` of it.
ghost use Rattle.std.specs.Prelude.{◌≡◌, ◌<◌, ◌≤◌, ◌++◌};
ghost use Rattle.std.proofs.lemmas.List.Edits.{sets};
ghost use Rattle.leg_bytes.specs.Write.{u64, i64, setup_bytes, phase_number, fade_position, voice_bytes, active_number, loop_number, loop_start, loop_end, points_bytes, player_bytes, record_of, place_of, record_bytes, queue_bytes, leg_bytes};

use event_processor::Queue;
use sampler_event::{Event, Kind, Record};
use sampler_player::{Player, Points, Setup};
use sampler_processor::Leg;
use sampler_voice::{Phase, Voice};
use timestamp::Timestamp;

fn put_time(bytes: &mut [u8; 490], at: usize, t: Timestamp)
    ensures { bytes.new ≡ sets bytes.old at (i64 t) }
{
    words::put(bytes, at, 8, words::signed_bits(t.as_raw_i64()));
}

fn put_setup(bytes: &mut [u8; 490], setup: Setup)
    ensures { bytes.new ≡ sets bytes.old 0 (setup_bytes setup) }
{
    words::put(bytes, 0, 4, setup.rate as u64);
    words::put(bytes, 4, 1, setup.channels as u64);
    words::put(bytes, 5, 4, setup.frames as u64);
    words::put(bytes, 9, 4, setup.fade as u64);
}

// ---- a voice. Its phase's number, like an event's kind and a loop's, is the layout's: no `From` of a type of another crate

// The phase's number, and its fade position.
fn phase_numbers(phase: Phase) -> (u64, usize)
    ensures { result ≡ (phase_number phase, fade_position phase) }
{
    match phase {
        Phase::Stopped => (0, 0),
        Phase::FadingIn(i) => (1, i),
        Phase::Playing => (2, 0),
        Phase::FadingOut(i) => (3, i),
    }
}

fn put_voice(bytes: &mut [u8; 490], at: usize, voice: Voice)
    requires { at ≤ 490 }
    ensures { bytes.new ≡ sets bytes.old at (voice_bytes voice) }
{
    let (number, fade) = phase_numbers(voice.phase);
    words::put(bytes, at, 1, number);
    words::put(bytes, at + 1, 8, fade as u64);
    words::put(bytes, at + 9, 8, voice.position as u64);
}

// ---- what plays

fn active_number(active: Option<usize>) -> u64
    ensures { result ≡ active_number active }
{
    match active {
        None => 0,
        Some(i) => (i as u64).wrapping_add(1),
    }
}

// Whether there is a loop, and its two points, zeros where none.
fn loop_numbers(points: Points) -> (u64, Timestamp, Timestamp)
    ensures { result ≡ (loop_number points, loop_start points, loop_end points) }
{
    match points {
        Points::Absent => (0, Timestamp::zero(), Timestamp::zero()),
        Points::Between(start, end) => (1, start, end),
    }
}

fn put_points(bytes: &mut [u8; 490], points: Points)
    ensures { bytes.new ≡ sets bytes.old 48 (points_bytes points) }
{
    let (number, start, end) = loop_numbers(points);
    words::put(bytes, 48, 1, number);
    put_time(bytes, 49, start);
    put_time(bytes, 57, end);
}

// Position, start position, completed loops.
fn put_clock(bytes: &mut [u8; 490], position: Timestamp, start: Timestamp, completed: usize)
    ensures { bytes.new ≡ sets bytes.old 65 (i64 position ++ (i64 start ++ u64 completed)) }
{
    put_time(bytes, 65, position);
    put_time(bytes, 73, start);
    words::put(bytes, 81, 8, completed as u64);
}

fn put_player(bytes: &mut [u8; 490], player: Player)
    ensures { bytes.new ≡ sets bytes.old 13 (player_bytes player) }
{
    put_voice(bytes, 13, player.voices[0]);
    put_voice(bytes, 30, player.voices[1]);
    words::put(bytes, 47, 1, active_number(player.active));
    put_points(bytes, player.points);
    put_clock(bytes, player.position, player.start, player.completed);
}

// ---- the queue

fn record_of(event: Event) -> Record
    ensures { result ≡ record_of event.time event.kind }
{
    let none = Timestamp::zero();
    let (kind, first, second) = match event.kind {
        Kind::Start(position) => (1, position, none),
        Kind::StartImmediate => (2, none, none),
        Kind::Stop => (3, none, none),
        Kind::EnableLoop(from, end) => (4, from, end),
        Kind::CancelLoop => (5, none, none),
        Kind::CancelAll => (6, none, none),
    };
    Record {
        kind,
        time: event.time,
        first,
        second,
    }
}

// The place i: zeros past the count.
fn place_of(queue: Queue, i: usize) -> Record
    requires { i < 16 }
    ensures { result ≡ place_of queue i }
{
    if i < queue.count {
        return record_of(queue.events[i]);
    }
    let none = Timestamp::zero();
    Record {
        kind: 0,
        time: none,
        first: none,
        second: none,
    }
}

fn put_record(bytes: &mut [u8; 490], at: usize, place: Record)
    requires { at ≤ 490 }
    ensures { bytes.new ≡ sets bytes.old at (record_bytes place) }
{
    words::put(bytes, at, 1, u64::from(place.kind));
    put_time(bytes, at + 1, place.time);
    put_time(bytes, at + 9, place.first);
    put_time(bytes, at + 17, place.second);
}

fn put_queue(bytes: &mut [u8; 490], queue: Queue)
    ensures { bytes.new ≡ sets bytes.old 89 (queue_bytes queue) }
{
    words::put(bytes, 89, 1, queue.count as u64);
    for i in 0..16 {
        put_record(bytes, 90 + 25 * i, place_of(queue, i));
    }
}

// ---- the leg

pub fn bytes_of(leg: Leg) -> [u8; 490]
    ensures { result ≡ leg_bytes leg }
{
    let mut bytes = [0; 490];
    put_setup(&mut bytes, leg.setup);
    put_player(&mut bytes, leg.player);
    put_queue(&mut bytes, leg.queue);
    bytes
}
