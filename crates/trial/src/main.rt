// Drives a leg from a file (docs/TRIAL.md): reads trials from standard input until it ends, and writes what
// the leg answered. A malformed one ends the program with a line on standard error.
#![tactic(auto)]

use buffered::{Reader, Writer};
use sampler_processor::Leg;
use trial_steps::{Malformed, Trial, numbered};

const STDERR: i32 = 2;

// What a trial's first 30 bytes say.
#[derive(Clone, Copy)]
struct Head {
    rate: usize,
    frames: usize,
    fade: usize,
    channels: usize,
    output: usize,
    a: usize,
    b: usize,
    steps: u64,
}

// The head, where the file has all of it, with the mark.
fn head_at(reader: &mut Reader) -> Option<Head> {
    reader.fill(30);
    // the bytes TRL1
    if !reader.holds(30) || reader.number(0, 4) != 0x314c5254 {
        return None;
    }
    let head = Head {
        rate: reader.count(4, 4),
        frames: reader.count(8, 4),
        fade: reader.count(12, 4),
        channels: reader.count(16, 1),
        output: reader.count(17, 1),
        a: reader.count(18, 4),
        b: reader.count(22, 4),
        steps: reader.number(26, 4),
    };
    reader.pass(30);
    Some(head)
}

// The next trial: the leg is made, its number written, and the steps follow.
fn trial(
    reader: &mut Reader,
    writer: &mut Writer,
    recording: &mut [f32],
    table: &mut [f32],
    entries: &mut [f32],
) -> Result<(), Malformed> {
    let malformed = Malformed::Trial(reader.offset());
    let head = head_at(reader).ok_or(malformed)?;
    let recording = recording.get_mut(..head.a).ok_or(malformed)?;
    let table = table.get_mut(..head.b).ok_or(malformed)?;
    if !(reader.read_floats(recording) && reader.read_floats(table)) {
        return Err(malformed);
    }
    let made = Leg::make(head.rate, head.channels, head.frames, head.fade);
    let (number, leg) = numbered(made);
    writer.put(1, u64::from(number));
    let mut trial = Trial {
        recording,
        table,
        channels: head.output,
        leg,
    };
    for _ in 0..head.steps {
        trial.step(reader, writer, entries)?;
    }
    Ok(())
}

// All trials. The arrays' lengths are TRIAL.md's limits.
fn trials(reader: &mut Reader, writer: &mut Writer) -> Result<(), Malformed> {
    let mut recording = [0.0; 524288];
    let mut table = [0.0; 8192];
    let mut entries = [0.0; 16384];
    // a limit, since every loop ends
    for _ in 0..0x7fff_ffff_ffff_ffff_u64 {
        reader.fill(1);
        if !reader.holds(1) {
            break;
        }
        trial(reader, writer, &mut recording, &mut table, &mut entries)?;
    }
    Ok(())
}

// ---- the end

// By the crate io: `eprintln!` would take the runtime and stand on one more C function, `rattle_errno`, which nothing
// proves.
fn report(malformed: Malformed) {
    let (what, at): (&[u8], u64) = match malformed {
        Malformed::Trial(at) => (b"trial", at),
        Malformed::Step(at) => (b"step", at),
    };
    io::write_all(STDERR, b"malformed ");
    io::write_all(STDERR, what);
    io::write_all(STDERR, b" at byte ");
    io::print_decimal(STDERR, at);
    io::write_all(STDERR, b"\n");
}

fn main() {
    let mut reader = Reader::new();
    let mut writer = Writer::new();
    if let Err(malformed) = trials(&mut reader, &mut writer) {
        report(malformed);
    }
    // what is left is written
    writer.flush();
    if !writer.output.taken {
        io::write_all(STDERR, b"the answers could not be written\n");
    }
}
