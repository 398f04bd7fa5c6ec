// A leg from its bytes, where they are one. `at` is at most 490 in the contracts, so that no place
// passes 64 bits: a slice from there on would ask for its length instead.
// Numbers by `as`: 64 bits are a usize's, and std has no `From` of it.
ghost use Rattle.std.specs.Prelude.{◌≡◌, ◌<◌, ◌≤◌, nat_lt};
ghost use Rattle.std.specs.Bool.{then_some};
ghost use Rattle.leg_bytes.specs.Read.{voice_at, active_of, points_at, player_at, event_at, blank_at, place_at, queue_at, read_leg, leg_of, told};

use crate::parts::{self, setup_at, time_at};
use event_processor::Queue;
use sampler_event::Event;
use sampler_player::{Player, Points};
use sampler_processor::Leg;
use sampler_voice::Voice;

// ---- a voice

fn voice_at(bytes: &[u8], at: usize) -> Option<Voice>
    requires { at ≤ 490 }
    ensures { result ≡ then_some (voice_at bytes.now at).good (voice_at bytes.now at).voice }
{
    let kind = words::number(bytes, at, 1);
    let fade = words::number(bytes, at + 1, 8);
    match (kind, fade) {
        (0 | 2, 0) | (1 | 3, _) => Some(parts::voice_at(bytes, at)),
        _ => None,
    }
}

// ---- what plays

// Which voice is active, if any.
fn active_of(number: u64) -> Option<Option<usize>>
    ensures { result ≡ then_some (nat_lt number 3) (active_of number) }
{
    if number < 3 {
        Some(parts::active_of(number))
    } else {
        None
    }
}

fn points_at(bytes: &[u8]) -> Option<Points>
    ensures { result ≡ then_some (points_at bytes.now 48).good (points_at bytes.now 48).points }
{
    let any = words::number(bytes, 48, 1);
    let from = words::number(bytes, 49, 8);
    let end = words::number(bytes, 57, 8);
    match (any, from, end) {
        (0, 0, 0) | (1, _, _) => Some(parts::points_at(bytes)),
        _ => None,
    }
}

#[tactic(auto, unfolding(crate::specs::Read::player_at))]
fn player_at(bytes: &[u8]) -> Option<Player>
    ensures { result ≡ then_some (player_at bytes.now).good (player_at bytes.now).player }
{
    let first = voice_at(bytes, 13)?;
    let second = voice_at(bytes, 30)?;
    Some(Player {
        voices: [first, second],
        active: active_of(words::number(bytes, 47, 1))?,
        points: points_at(bytes)?,
        position: time_at(bytes, 65),
        start: time_at(bytes, 73),
        completed: words::number(bytes, 81, 8) as usize,
    })
}

// ---- the queue

// A place that is used: of a kind that there is, which has the positions that are not 0. No `Event::try_from`, which wants a
// StartImmediate's time to be 0: a damaged leg may have another.
fn event_at(bytes: &[u8], at: usize) -> Option<Event>
    requires { at ≤ 490 }
    ensures { result ≡ then_some (event_at bytes.now at).good (event_at bytes.now at).event }
{
    let number = words::number(bytes, at, 1);
    let first = words::number(bytes, at + 9, 8);
    let second = words::number(bytes, at + 17, 8);
    match (number, first, second) {
        (1, _, 0) | (2 | 3 | 5 | 6, 0, 0) | (4, _, _) => Some(parts::event_at(bytes, at)),
        _ => None,
    }
}

// A place that is not used: zeros, which are the blank event here.
fn blank_at(bytes: &[u8], at: usize) -> Option<Event>
    requires { at ≤ 490 }
    ensures { result ≡ then_some (blank_at bytes.now at).good (blank_at bytes.now at).event }
{
    let kind = words::number(bytes, at, 1);
    let time = words::number(bytes, at + 1, 8);
    let first = words::number(bytes, at + 9, 8);
    let second = words::number(bytes, at + 17, 8);
    match (kind, time, first, second) {
        (0, 0, 0, 0) => Some(Event::blank()),
        _ => None,
    }
}

fn place_at(bytes: &[u8], i: usize) -> Option<Event>
    requires { i < 16 }
    ensures { result ≡ then_some (place_at bytes.now i).good (place_at bytes.now i).event }
{
    let count = words::number(bytes, 89, 1) as usize;
    if i < count {
        event_at(bytes, 90 + 25 * i)
    } else {
        blank_at(bytes, 90 + 25 * i)
    }
}

fn queue_at(bytes: &[u8]) -> Option<Queue>
    ensures { result ≡ then_some (queue_at bytes.now).good (queue_at bytes.now).queue }
{
    let mut events = [Event::blank(); 16];
    for (i, event) in events.iter_mut().enumerate() {
        *event = place_at(bytes, i)?;
    }
    Some(Queue {
        events,
        count: words::number(bytes, 89, 1) as usize,
    })
}

// ---- the leg

// The leg that the bytes are, or none where they are malformed.
fn well_formed(bytes: &[u8]) -> Option<Leg>
    ensures { result ≡ leg_of bytes.now }
{
    if bytes.len() != 490 {
        return None;
    }
    Some(Leg {
        setup: setup_at(bytes),
        player: player_at(bytes)?,
        queue: queue_at(bytes)?,
    })
}

// The leg that the bytes are; an `Err` where they are malformed, with the leg that their numbers give all the same.
pub fn read(bytes: &[u8]) -> Result<Leg, Leg>
    ensures { told result ≡ read_leg bytes.now }
{
    match well_formed(bytes) {
        Some(leg) => Ok(leg),
        None => Err(parts::leg_at(bytes)),
    }
}
