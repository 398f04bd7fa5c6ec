// Replays the oracle's answers: each row of standard input (74 bytes; oracle/README.md has the
// layout) is a call of the port, whose number and result must be the row's. Writes, for each op, how
// many rows were compared and how many differ, and the first row that does.
#![tactic(auto)]

mod calls;
mod queue;
mod row;

use queue::State;
use row::Row;

// What can't be written is lost. The kit's `io` reads and writes: std's would have us trust `lseek` and `errno` too.
const STDOUT: i32 = 1;

// The rows of one op: how many, and how many of them differ.
#[derive(Clone, Copy)]
struct Count {
    rows: u64,
    differ: u64,
}

impl Count {
    fn add(&mut self, same: bool) {
        self.rows = self.rows.wrapping_add(1);
        self.differ = self.differ.wrapping_add(u64::from(!same));
    }
}

fn print_count(op: u64, count: Count) {
    io::write_all(STDOUT, b"op ");
    io::print_hex(STDOUT, op, 2);
    io::write_all(STDOUT, b": ");
    io::print_decimal(STDOUT, count.rows);
    io::write_all(STDOUT, b" compared, ");
    io::print_decimal(STDOUT, count.differ);
    io::write_all(STDOUT, b" differ\n");
}

fn print_counts(counts: &[Count; 64]) {
    for (op, count) in counts.iter().enumerate() {
        if count.rows != 0 {
            print_count(op as u64, *count);
        }
    }
}

// Whether the port's answer is the row's.
fn judged(state: &mut State, r: Row) -> bool {
    if 48 <= r.op {
        state.replay(r)
    } else {
        calls::answer(r) == (r.number, r.result)
    }
}

// The next row, where a whole one is left.
fn read_row(text: &mut [u8; 74]) -> bool {
    io::read_full(0, text) == 74
}

fn print_first(text: &[u8; 74]) {
    io::write_all(STDOUT, b"differs first: ");
    io::write_all(STDOUT, text);
}

fn main() {
    let mut counts = [Count { rows: 0, differ: 0 }; 64];
    let mut text = [0u8; 74];
    let mut state = State::new(0, 0);
    let mut shown = false;
    // a limit, since every loop ends
    for _ in 0..1_000_000_000u64 {
        if !read_row(&mut text) {
            break;
        }
        if text[0] == b'#' {
            continue;
        }
        let r = row::row_of(&text);
        let same = judged(&mut state, r);
        if let Some(count) = counts.get_mut(r.op as usize) {
            count.add(same);
        }
        if !same & !shown {
            print_first(&text);
            shown = true;
        }
    }
    print_counts(&counts);
}
