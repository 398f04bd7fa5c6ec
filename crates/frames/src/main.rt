// Document 01's "Frames to check" through the leg's own calls: renders m10 and m11 in buffers of its
// own and prints the bits of m10's five samples, then of m11's frames 150 to 153.
#![tactic(auto)]

use laws::Refused;
use sampler_player::Lent;
use sampler_processor::Leg;
use std::ops::Range;
use timestamp::{Rate, Timestamp};

// What can't be written is lost. The kit's `io` writes: std's would have us trust `errno` too.
const STDOUT: i32 = 1;

// A call that is refused is one line more, and the leg goes on as it was. This and `told` are much as in the program
// `fades`: a crate for the two would be longer than they are.
fn taken(answer: Result<Leg, Refused<Leg>>) -> Leg {
    match answer {
        Ok(leg) => leg,
        Err(refused) => {
            io::write_all(STDOUT, b"refused\n");
            refused.kept
        }
    }
}

// A command at time 0. The kind is its number, as document 01's record has it.
fn told(leg: Leg, kind: u8, first: Timestamp, second: Timestamp) -> Leg {
    let mut bytes = [0u8; 26];
    bytes[0] = kind;
    words::put(&mut bytes, 10, 8, words::signed_bits(first.bits));
    words::put(&mut bytes, 18, 8, words::signed_bits(second.bits));
    taken(leg.submit(&bytes))
}

// Renders a block at time 0 and prints the samples of some of its frames.
fn show(leg: Leg, rec: &[f32], table: &[f32], out: &mut [f32], frames: Range<usize>) {
    let lent = Lent {
        recording: rec,
        table,
        channels: 1,
        block: out.len(),
    };
    let _ = leg.render(lent, out, Timestamp::zero());
    for x in out.iter().take(frames.end).skip(frames.start) {
        io::print_hex(STDOUT, u64::from(words::float_bits(*x)), 8);
        io::write_all(STDOUT, b"\n");
    }
}

// StartImmediate and Stop: 1, .75, .5, .25, 0.
fn stopped(table: &[f32]) {
    let zero = Timestamp::zero();
    let rec = [1.0f32; 8];
    let leg = taken(Leg::make(48000, 1, 8, 4));
    let started = told(leg, 2, zero, zero);
    let ready = told(started, 3, zero, zero);
    let mut out = [0.0f32; 4096];
    show(ready, &rec, table, &mut out[..5], 0..5);
}

// A loop from frame 50 to 150: no gap where it turns.
fn looped(table: &[f32]) {
    let zero = Timestamp::zero();
    let rate = Rate { hertz: 48000 };
    let rec = [1.0f32; 200];
    let leg = taken(Leg::make(48000, 1, 200, 4));
    let from = timestamp::time_of(50, rate);
    let end = timestamp::time_of(150, rate);
    let looping = told(leg, 4, from, end);
    let ready = told(looping, 2, zero, zero);
    let mut out = [0.0f32; 4096];
    show(ready, &rec, table, &mut out[..200], 150..154);
}

fn main() {
    let table = [0.0f32, 0.25, 0.5, 0.75];
    stopped(&table);
    looped(&table);
}
