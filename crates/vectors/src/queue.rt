// The ops of the command queue. Its state goes from row to row: a row 30 starts it anew, a row 31 is
// a command, a row 32 takes the first event before an end.
use crate::calls::timed;
use crate::row::Row;
use event_processor::Queue;
use laws::Refusal;
use sampler_event::{Event, Kind, Limits, time_from as time};

#[derive(Clone, Copy)]
pub struct State {
    pub rate: u64,
    pub fade: u64,
    pub queue: Queue,
}

// ---- the command

// The record's 26 bytes, and zeros.
fn record(r: Row) -> [u8; 64] {
    let mut bytes = [0u8; 64];
    words::put(&mut bytes, 0, 2, r.result);
    words::put(&mut bytes, 2, 8, r.a);
    words::put(&mut bytes, 10, 8, r.b);
    words::put(&mut bytes, 18, 8, r.c);
    bytes
}

// The rows keep to records of at most 64 bytes.
fn commanded(r: Row, limits: Limits) -> Result<Event, Refusal> {
    let bytes = record(r);
    let length = (r.result / 65536) as usize;
    sampler_event::command(bytes.get(..length).unwrap_or(&bytes), limits)
}

// ---- the first event before an end

// What the list has of an event: its kind's number, its time, its positions. By a match of its own and not by `try_from`,
// which read the event: a slip there would be in both, and show nothing.
fn told(event: Event) -> [u64; 4] {
    let (kind, first, second) = match event.get_event_type() {
        Kind::Start(position) => (1, timed(position), 0),
        Kind::StartImmediate => (2, 0, 0),
        Kind::Stop => (3, 0, 0),
        Kind::EnableLoop(start, end) => (4, timed(start), timed(end)),
        Kind::CancelLoop => (5, 0, 0),
        Kind::CancelAll => (6, 0, 0),
    };
    [kind, timed(event.get_time()), first, second]
}

// ---- the state

impl State {
    pub fn new(rate: u64, fade: u64) -> State {
        State {
            rate,
            fade,
            queue: Queue::empty(),
        }
    }

    // The limits of a command, where the row's rate and fade length are in range: no row has others.
    fn limits(&self) -> Option<Limits> {
        if (96000 < self.rate) | (4800 < self.fade) {
            return None;
        }
        Some(Limits {
            rate: self.rate as usize,
            fade: self.fade as usize,
        })
    }

    fn enter(&mut self, r: Row, limits: Limits) -> Result<(), Refusal> {
        let event = commanded(r, limits)?;
        self.queue = self.queue.receive(event).map_err(|full| full.refusal)?;
        Ok(())
    }

    fn command(&mut self, r: Row) -> bool {
        let Some(limits) = self.limits() else {
            return false;
        };
        let number = match self.enter(r, limits) {
            Ok(()) => 0,
            Err(refusal) => u8::from(refusal),
        };
        u64::from(number) == r.number
    }

    fn take(&mut self, r: Row) -> bool {
        let taken = self.queue.next_event_before(time(r.a));
        self.queue = taken.queue;
        // no event is zeros
        taken.first.map_or([0; 4], told) == [r.number, r.result, r.b, r.c]
    }

    // Plays a row: whether the port's answer is the row's.
    pub fn replay(&mut self, r: Row) -> bool {
        match r.op {
            48 => {
                *self = State::new(r.a, r.b);
                (r.number == 0) & (r.result == 0)
            }
            49 => self.command(r),
            50 => self.take(r),
            _ => false,
        }
    }
}
