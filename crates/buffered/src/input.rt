// Standard input through a buffer. A caller asks `fill` for as many bytes as it is about to read.
ghost use Rattle.std.specs.Prelude.{◌≡◌, ◌+◌, ◌-◌, ◌*◌, ◌^◌, ◌<◌, ◌≤◌, min, length, take, drop, nat_le};
ghost use Rattle.sampler_event.specs.Record.{time_from};
ghost use Rattle.buffered.specs.Input.{held, place, passed_by, Filled, number_at, part_at, float_at, Read};

use timestamp::Timestamp;

const STDIN: i32 = 0;

// Where reading stands: the next byte of the buffer, the end of what it holds, and the bytes of the file
// that went before it.
#[derive(Clone, Copy)]
pub struct Input {
    pub at: usize,
    pub end: usize,
    pub gone: u64,
}

// The buffer, and where reading stands.
#[derive(Drop)]
pub struct Reader {
    pub bytes: [u8; 65536],
    pub input: Input,
}

// Reads from `at` on, and answers how many bytes were read. Those before it stay, which is why it takes `at` and no slice.
// By `io`, since std's readers ask for the runtime's handle or the heap, and have more of C trusted.
fn read_from(buffer: &mut [u8], at: usize) -> usize
    requires { at ≤ length buffer.old }
    ensures in_bounds { at + result ≤ length buffer.old }
    ensures front_kept { take at buffer.new ≡ take at buffer.old }
{
    io::read_full(STDIN, &mut buffer[at..])
}

impl Reader {
    // Before the first byte.
    pub fn new() -> Reader
        ensures { result.input ≡ record { at = 0; end = 0; gone = 0 } }
    {
        Reader {
            bytes: [0; 65536],
            input: Input {
                at: 0,
                end: 0,
                gone: 0,
            },
        }
    }

    // The next byte's place in the file.
    pub fn offset(&self) -> u64
        ensures { result ≡ place self.now.input }
    {
        self.input.gone.wrapping_add(self.input.at as u64)
    }

    // How many bytes the buffer holds from the next one on.
    fn held(&self) -> usize
        ensures { result ≡ held self.now.input }
    {
        self.input.end.min(65536).saturating_sub(self.input.at)
    }

    // Whether the buffer holds the next n bytes.
    pub fn holds(&self, n: usize) -> bool
        ensures { result ≡ nat_le n (held self.now.input) }
    {
        n <= self.held()
    }

    // Past the next n bytes.
    pub fn pass(&mut self, n: usize)
        ensures bytes_kept { self.new.bytes ≡ self.old.bytes }
        ensures input { self.new.input ≡ passed_by n self.old.input }
    {
        self.input.at = self.input.at.wrapping_add(n);
    }

    // The buffer holds the next n bytes after this, where the file has them.
    pub fn fill(&mut self, n: usize)
        ensures { Filled n self.old.bytes self.old.input self.new.bytes self.new.input }
    {
        if self.holds(n) {
            return;
        }
        let gone = self.offset();
        let at = self.input.at.min(65536);
        let kept = self.held();
        self.bytes.copy_within(at..at + kept, 0);
        let more = read_from(&mut self.bytes, kept);
        self.input = Input {
            at: 0,
            end: kept + more,
            gone,
        };
    }

    // ---- numbers

    // The number of n bytes, the first of them `skip` past the next one, the lowest first.
    pub fn number(&self, skip: usize, n: usize) -> u64
        requires { n ≤ 8 }
        ensures value { result ≡ number_at self.now.bytes self.now.input skip n }
        ensures bound { result < 256 ^ n }
    {
        words::number(&self.bytes, self.input.at.wrapping_add(skip), n)
    }

    // The same as a count: by `as`, since std has no `From` of 64 bits.
    pub fn count(&self, skip: usize, n: usize) -> usize
        requires { n ≤ 8 }
        ensures { (result ≡ number_at self.now.bytes self.now.input skip n) × (result < 256 ^ n) }
    {
        self.number(skip, n) as usize
    }

    // Eight bytes as a time.
    pub fn time(&self, skip: usize) -> Timestamp
        ensures { result ≡ time_from (number_at self.now.bytes self.now.input skip 8) }
    {
        sampler_event::time_from(self.number(skip, 8))
    }

    // The n bytes from `skip` past the next one on, where all are held, and otherwise none: `part_at` says so, no Option.
    pub fn part(&self, skip: usize, n: usize) -> &[u8]
        ensures { result.now ≡ part_at self.now.bytes self.now.input skip n }
    {
        let held = self.held();
        if held <= skip || held - skip < n {
            return &[];
        }
        let from = self.input.at + skip;
        &self.bytes[from..from + n]
    }

    // ---- floats

    // The float of the next four bytes, whose number fits 32 bits: `try_from` would test it again.
    fn float(&self) -> f32
        ensures { result ≡ float_at self.now.bytes self.now.input.at }
    {
        words::float(words::number(&self.bytes, self.input.at, 4) as u32)
    }

    // Fills the entries from the file, and answers whether all were there.
    pub fn read_floats(&mut self, entries: &mut [f32]) -> bool
        ensures { Read (length entries.old) self.old.bytes self.old.input result self.new.input entries.new }
    {
        for entry in entries.iter_mut() {
            self.fill(4);
            if !self.holds(4) {
                return false;
            }
            *entry = self.float();
            self.pass(4);
        }
        true
    }
}
