// The fade table of 48,000 played through the leg's own calls: a start inside the recording fades in, a second one
// across the first, and a stop out. Each event comes at frame 105 of a block of 4,096 frames. Of each block: its number
// and its pieces, the bits before, in and after the fade, and a sum of all bits.
#![tactic(auto)]

use laws::Refused;
use sampler_player::Lent;
use sampler_processor::{Leg, Rendered};
use timestamp::{Rate, Timestamp};

// What can't be written is lost. The kit's `io` writes: std's would have us trust `errno` too.
const STDOUT: i32 = 1;

const RATE: Rate = Rate { hertz: 48000 };

// A call that is refused is one line more, and the leg goes on as it was. This and `told` are much as in the program
// `frames`: a crate for the two would be longer than they are.
fn taken(answer: Result<Leg, Refused<Leg>>) -> Leg {
    match answer {
        Ok(leg) => leg,
        Err(refused) => {
            io::write_all(STDOUT, b"refused\n");
            refused.kept
        }
    }
}

// A command at a time, with a position. The kind is its number, as document 01's record has it.
fn told(leg: Leg, kind: u8, time: Timestamp, position: Timestamp) -> Leg {
    let mut bytes = [0u8; 26];
    bytes[0] = kind;
    words::put(&mut bytes, 2, 8, words::signed_bits(time.bits));
    words::put(&mut bytes, 10, 8, words::signed_bits(position.bits));
    taken(leg.submit(&bytes))
}

// Frames that all differ, from .5 up.
fn fill(rec: &mut [f32]) {
    for (i, x) in rec.iter_mut().enumerate() {
        *x = words::float(0x3f00_0000 + 97 * (i % 65536) as u32);
    }
}

// Every bit of every sample counts, and its place.
fn sum_of(samples: &[f32]) -> u64 {
    let mut sum: u64 = 0;
    for x in samples {
        sum = (sum * 31 + u64::from(words::float_bits(*x))) % 4294967291;
    }
    sum
}

fn print(n: u64, width: usize) {
    io::print_hex(STDOUT, n, width);
    io::write_all(STDOUT, b"\n");
}

// The number and the pieces of an answer, and the leg that goes on: much as in trial_steps, of which this program uses
// nothing else.
fn answered(answer: Result<Rendered, Refused<Leg>>) -> (u8, usize, Leg) {
    match answer {
        Ok(rendered) => (0, rendered.pieces, rendered.leg),
        Err(refused) => (u8::from(refused.refusal), 0, refused.kept),
    }
}

// One block over zeros.
fn show(leg: Leg, rec: &[f32], table: &[f32], start: Timestamp) -> Leg {
    let mut out = [0.0f32; 4096];
    let lent = Lent {
        recording: rec,
        table,
        channels: 1,
        block: 4096,
    };
    let (number, pieces, next) = answered(leg.render(lent, &mut out, start));
    print(u64::from(number), 2);
    print(pieces as u64, 2);
    for at in [104usize, 105, 106, 1305, 2503, 2504, 2505] {
        print(u64::from(words::float_bits(out[at])), 8);
    }
    print(sum_of(&out), 8);
    next
}

// A fresh leg with the three commands.
fn ready() -> Leg {
    let leg = taken(Leg::make(48000, 1, 16000, 2400));
    let first = timestamp::time_of(1000, RATE);
    let started = told(leg, 1, timestamp::time_of(105, RATE), first);
    let second = timestamp::time_of(6000, RATE);
    let crossed = told(started, 1, timestamp::time_of(4201, RATE), second);
    told(
        crossed,
        3,
        timestamp::time_of(8297, RATE),
        Timestamp::zero(),
    )
}

fn play(rec: &[f32], table: &[f32]) {
    let faded_in = show(ready(), rec, table, Timestamp::zero());
    let across = show(faded_in, rec, table, timestamp::time_of(4096, RATE));
    show(across, rec, table, timestamp::time_of(8192, RATE));
}

fn main() {
    let table = sampler_fade::table_48000();
    let mut rec = [0.0f32; 16000];
    fill(&mut rec);
    play(&rec, &table);
}
