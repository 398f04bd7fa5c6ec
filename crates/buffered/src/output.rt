// Standard output through a buffer. Once a write fails nothing more is written.
ghost use Rattle.std.specs.Prelude.{◌≡◌, ◌+◌, ◌<◌, ◌≤◌, true, false, length};
ghost use Rattle.words.specs.Digits.{bytes_of};
ghost use Rattle.buffered.specs.Output.{spot, Put, put_floats};

const STDOUT: i32 = 1;

// How many bytes the buffer holds, and whether every write so far was taken: `Put` says each of both.
#[derive(Clone, Copy)]
pub struct Output {
    pub held: usize,
    pub taken: bool,
}

// The buffer, and where writing stands.
#[derive(Drop)]
pub struct Writer {
    pub bytes: [u8; 65536],
    pub output: Output,
}

impl Writer {
    // Before the first byte.
    pub fn new() -> Writer
        ensures { result.output ≡ record { held = 0; taken = true } }
    {
        Writer {
            bytes: [0; 65536],
            output: Output {
                held: 0,
                taken: true,
            },
        }
    }

    // What the buffer holds is written out. What was refused before stays so. By `io`, for the reason that `read_from` has.
    pub fn flush(&mut self)
        ensures bytes_kept { self.new.bytes ≡ self.old.bytes }
        ensures emptied { self.new.output.held ≡ 0 }
        ensures stays_refused { self.old.output.taken ≡ false → self.new.output.taken ≡ false }
    {
        let held = self.output.held;
        if self.output.taken {
            self.output.taken = held <= self.bytes.len()
                && io::write_all(STDOUT, &self.bytes[..held]);
        }
        self.output.held = 0;
    }

    // Room for n bytes more, at most 65,536.
    fn make_room(&mut self, n: usize)
        requires { n ≤ 65536 }
        ensures bytes_kept { self.new.bytes ≡ self.old.bytes }
        ensures value { self.new.output.held ≡ spot self.old.output.held n }
        ensures taken_kept { (self.old.output.held + n ≤ 65536 → self.new.output.taken ≡ self.old.output.taken) }
        ensures room { self.new.output.held + n ≤ 65536 }
    {
        if 65536 - n < self.output.held {
            self.flush();
        }
    }

    // A number of n bytes.
    pub fn put(&mut self, n: usize, number: u64)
        requires { n ≤ 8 }
        ensures { Put (bytes_of n number) self.old.bytes self.old.output self.new.bytes self.new.output }
    {
        self.make_room(n);
        words::put(&mut self.bytes, self.output.held, n, number);
        self.output.held += n;
    }

    // These bytes, at most 65,536.
    pub fn put_bytes(&mut self, bytes: &[u8])
        requires { length bytes.now ≤ 65536 }
        ensures { Put bytes.now self.old.bytes self.old.output self.new.bytes self.new.output }
    {
        let n = bytes.len();
        self.make_room(n);
        let at = self.output.held;
        self.bytes[at..at + n].copy_from_slice(bytes);
        self.output.held += n;
    }

    // Floats, four bytes each, one after the other.
    pub fn put_floats(&mut self, entries: &[f32])
        ensures { (self.new.bytes, self.new.output.held) ≡ put_floats entries.now self.old.bytes self.old.output.held }
    {
        for x in entries {
            self.put(4, u64::from(words::float_bits(*x)));
        }
    }
}
