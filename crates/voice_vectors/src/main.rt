// Replays the Rust's voices: each row of standard input (78 bytes; oracle/README.md has the layout) sets entries of
// the buffers, renders a piece, or holds what the Rust made of it, bit for bit. Writes how many pieces were
// compared and how many differ, and the first row that does.
#![tactic(auto)]

mod piece;
mod row;

use piece::Buffers;
use row::{Op, Row};
use sampler_voice::Voice;

// What can't be written is lost. The kit's `io` reads and writes: std's would have us trust `lseek` and `errno` too.
const STDOUT: i32 = 1;

// The piece at hand and the count of those before it.
#[derive(Clone, Copy)]
struct Run {
    voice: Voice,
    good: bool,
    pieces: u64,
    rows: u64,
    differ: u64,
}

impl Run {
    // A piece differs once, however many of its rows do.
    fn judged(self, same: bool) -> Run {
        Run {
            good: self.good && same,
            rows: self.rows.wrapping_add(1),
            differ: self.differ.wrapping_add(u64::from(self.good && !same)),
            ..self
        }
    }

    fn begun(self, rendered: Option<Voice>) -> Run {
        Run {
            voice: rendered.unwrap_or_default(),
            good: rendered.is_some(),
            pieces: self.pieces.wrapping_add(1),
            differ: self.differ.wrapping_add(u64::from(rendered.is_none())),
            ..self
        }
    }

    fn step(self, buffers: &mut Buffers, row: Row) -> Run {
        match row.op {
            Op::Recording => piece::set(&mut buffers.recording, row),
            Op::Fade => piece::set(&mut buffers.fade, row),
            Op::Output => piece::set(&mut buffers.output, row),
            Op::Render => return self.begun(buffers.render(row)),
            Op::Voice => return self.judged(piece::is_voice(self.voice, row)),
            Op::Heard => return self.judged(piece::holds(&buffers.output, row)),
            Op::Unknown => return self.judged(false),
        }
        self
    }
}

fn print_run(run: Run) {
    io::print_decimal(STDOUT, run.pieces);
    io::write_all(STDOUT, b" pieces compared in ");
    io::print_decimal(STDOUT, run.rows);
    io::write_all(STDOUT, b" rows, ");
    io::print_decimal(STDOUT, run.differ);
    io::write_all(STDOUT, b" differ\n");
}

fn main() {
    let mut text = [0u8; 78];
    let mut buffers = Buffers {
        recording: [0.0; 128],
        fade: [0.0; 16],
        output: [0.0; 128],
    };
    let mut run = Run {
        voice: Voice::default(),
        good: true,
        pieces: 0,
        rows: 0,
        differ: 0,
    };
    // a limit, since every loop ends
    for _ in 0..1_000_000_000u64 {
        // the rest is no whole row
        if io::read_full(0, &mut text) < text.len() {
            break;
        }
        // a comment
        if text[0] == b'#' {
            continue;
        }
        let next = run.step(&mut buffers, Row::from(&text));
        if run.differ == 0 && 0 < next.differ {
            io::write_all(STDOUT, b"differs first: ");
            io::write_all(STDOUT, &text);
        }
        run = next;
    }
    print_run(run);
}
