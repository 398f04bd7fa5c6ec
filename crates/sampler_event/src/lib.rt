// sampler_event.rs: what a sampler can be told (`Kind` is the Rust's `SampleEventType`, `Event` its
// `SamplerEvent`), and document 01's command record, the 26 bytes that tell it. The Rust's sequence
// number is gone: among equal times the queue keeps the place of submission.
#![tactic(auto)]

ghost use Rattle.std.specs.Prelude.{◌≡◌, false, ◌&&◌, ◌||◌, ◌^◌, ◌≤◌, ◌<◌, max, pos, length};
ghost use Rattle.laws.specs.Rules.{within, number_in};
ghost use Rattle.sampler_event.specs.Events.{event_at, event_now, blank_event, timed, is_cancel_all};
ghost use Rattle.sampler_event.specs.Record.{little, as_i64, time_from, fields, is_zero, event_of};
ghost use Rattle.sampler_event.specs.Limits.{place_bad, positions_bad, loop_short, loop_bad, event_fault, admissible};
ghost use Rattle.sampler_event.specs.Command.{told, asked, command_answer};

use laws::Refusal;
use timestamp::Timestamp;

// ---- sampler_event.rs

#[derive(Clone, Copy, Debug, PartialEq, Eq)]
pub enum Kind {
    Start(Timestamp),
    StartImmediate,
    Stop,
    EnableLoop(Timestamp, Timestamp),
    CancelLoop,
    CancelAll,
}

#[derive(Clone, Copy, Debug, PartialEq, Eq)]
pub struct Event {
    pub time: Timestamp,
    pub kind: Kind,
}

// The "now" form of an event.
fn at_once(kind: Kind) -> Event
    ensures { result ≡ event_now kind }
{
    Event {
        time: Timestamp::zero(),
        kind,
    }
}

// One function for each event, by the Rust's names: they differ in the kind alone, and what they have in common is the
// public struct itself, so a generic one would be no plainer.
impl Event {
    pub fn get_event_type(self) -> Kind
        ensures { result ≡ self.kind }
    {
        self.kind
    }

    pub fn start(start_at_time: Timestamp, position_in_sample: Timestamp) -> Event
        ensures { result ≡ event_at start_at_time (Kind.Start position_in_sample) }
    {
        Event {
            time: start_at_time,
            kind: Kind::Start(position_in_sample),
        }
    }

    pub fn start_now() -> Event
        ensures { result ≡ event_now Kind.StartImmediate }
    {
        at_once(Kind::StartImmediate)
    }

    pub fn stop(stop_at_time: Timestamp) -> Event
        ensures { result ≡ event_at stop_at_time Kind.Stop }
    {
        Event {
            time: stop_at_time,
            kind: Kind::Stop,
        }
    }

    pub fn stop_now() -> Event
        ensures { result ≡ event_now Kind.Stop }
    {
        at_once(Kind::Stop)
    }

    pub fn enable_loop_at_time(
        enable_at_time: Timestamp,
        loop_start: Timestamp,
        loop_end: Timestamp,
    ) -> Event
        ensures { result ≡ event_at enable_at_time (Kind.EnableLoop loop_start loop_end) }
    {
        Event {
            time: enable_at_time,
            kind: Kind::EnableLoop(loop_start, loop_end),
        }
    }

    pub fn cancel_loop_at_time(cancel_time: Timestamp) -> Event
        ensures { result ≡ event_at cancel_time Kind.CancelLoop }
    {
        Event {
            time: cancel_time,
            kind: Kind::CancelLoop,
        }
    }

    pub fn enable_loop(loop_start: Timestamp, loop_end: Timestamp) -> Event
        ensures { result ≡ event_now (Kind.EnableLoop loop_start loop_end) }
    {
        at_once(Kind::EnableLoop(loop_start, loop_end))
    }

    pub fn cancel_loop() -> Event
        ensures { result ≡ event_now Kind.CancelLoop }
    {
        at_once(Kind::CancelLoop)
    }

    pub fn cancel_all() -> Event
        ensures { result ≡ event_now Kind.CancelAll }
    {
        at_once(Kind::CancelAll)
    }

    pub fn get_time(self) -> Timestamp
        ensures { result ≡ self.time }
    {
        self.time
    }

    pub fn should_clear_queue(self) -> bool
        ensures { result ≡ is_cancel_all self.kind }
    {
        matches!(self.kind, Kind::CancelAll)
    }

    // What `told` gives for a refusal, and a place of the queue that is not used.
    pub fn blank() -> Event
        ensures { result ≡ blank_event }
    {
        at_once(Kind::Start(Timestamp::zero()))
    }
}

// ---- times

// 2^48, the last event time.
const LAST_TIME: i64 = 281474976710656;

// 2^42, the last position.
const LAST_PLACE: i64 = 4398046511104;

// Whether t lies from low to high.
pub fn within(t: Timestamp, low: i64, high: i64) -> bool
    ensures { result ≡ within low high t.bits }
{
    (low..=high).contains(&t.bits)
}

// ---- numbers 10, 11 and 12

// Number 11 of one position.
pub fn place_bad(t: Timestamp) -> bool
    ensures { result ≡ place_bad t.bits }
{
    !within(t, 0, LAST_PLACE)
}

// The number that a position past 11 is: no `try_from`, whose error could not be.
fn units(t: Timestamp) -> usize
    requires { place_bad t.bits ≡ false }
    ensures { t.bits ≡ pos result }
{
    t.bits as usize
}

// What a leg's setup says of the events that it can take.
#[derive(Clone, Copy, Debug, PartialEq, Eq)]
pub struct Limits {
    pub rate: usize,
    pub fade: usize,
    pub ghost fast: { rate ≤ 96000 },
    pub ghost fade_bound: { fade ≤ 4800 },
}

// The fewest frames that a loop may have.
fn least_frames(fade: usize) -> usize
    ensures { result ≡ max fade 64 }
{
    fade.max(64)
}

// Number 12, of points that pass 11: so the product stays below 2^59. That a position passes 11 stays a clause: a kind
// holds any, and 11 refuses it.
pub fn loop_short(start: Timestamp, end: Timestamp, limits: Limits) -> bool
    requires start_good { place_bad start.bits ≡ false }
    requires end_good { place_bad end.bits ≡ false }
    ensures { result ≡ loop_short limits.rate limits.fade start.bits end.bits }
{
    let Some(length) = units(end).checked_sub(units(start)) else {
        return true;
    };
    length * limits.rate + 2147483648 < least_frames(limits.fade) * 4294967296
}

impl Kind {
    // Whether a kind has a time of its own: 2 and 6 are at 0.
    fn timed(self) -> bool
        ensures { result ≡ timed self }
    {
        !matches!(self, Kind::StartImmediate | Kind::CancelAll)
    }

    // Number 11.
    fn positions_bad(self) -> bool
        ensures { result ≡ positions_bad self }
    {
        match self {
            Kind::Start(position) => place_bad(position),
            Kind::EnableLoop(start, end) => place_bad(start) || place_bad(end),
            _ => false,
        }
    }

    // Number 12.
    fn loop_bad(self, limits: Limits) -> bool
        requires { positions_bad self ≡ false }
        ensures { result ≡ loop_bad limits.rate limits.fade self }
    {
        match self {
            Kind::EnableLoop(start, end) => loop_short(start, end, limits),
            _ => false,
        }
    }
}

impl Event {
    // What refuses an event by itself: 10, 11, 12, or nothing.
    #[tactic(auto, unfolding(crate::specs::Limits::event_fault))]
    pub fn fault(self, limits: Limits) -> Result<(), Refusal>
        ensures { number_in result ≡ event_fault limits.rate limits.fade self }
    {
        if !within(self.time, 0, LAST_TIME) {
            return Err(Refusal::EventTime);
        }
        if self.kind.positions_bad() {
            return Err(Refusal::Position);
        }
        if self.kind.loop_bad(limits) {
            return Err(Refusal::LoopShort);
        }
        Ok(())
    }

    // Whether an event has the time 0 where its kind has no other.
    fn timely(self) -> bool
        ensures { result ≡ (timed self.kind || is_zero self.time) }
    {
        self.kind.timed() || self.time == Timestamp::zero()
    }

    // Whether an event is one that a command can have entered.
    #[tactic(auto, using(crate::proofs::Answers::number_ok), unfolding(crate::specs::Limits::admissible))]
    pub fn admissible(self, limits: Limits) -> bool
        ensures { result ≡ admissible limits.rate limits.fade self }
    {
        self.fault(limits).is_ok() && self.timely()
    }
}

// ---- the record

// A record as a value, its fields in its order. What is a time or not used is a `Timestamp`; the kind is a number, since it
// may be unknown (`fields` and `event_of`, specs/Record, are said of it).
#[derive(Clone, Copy, Debug, PartialEq, Eq)]
pub struct Record {
    pub kind: u16,
    pub time: Timestamp,
    pub first: Timestamp,
    pub second: Timestamp,
}

// 64 bits as a signed number: std's, with document 01's "as i64" as its promise, which the readers of bytes cite.
pub fn as_i64(u: u64) -> i64
    ensures { result ≡ as_i64 u }
{
    u.cast_signed()
}

// The number of at most 8 bytes, the lowest first. Each of them is read once.
pub fn little(bytes: &[u8]) -> u64
    requires { length bytes.now ≤ 8 }
    ensures value { result ≡ little bytes.now }
    ensures bound { result < 256 ^ length bytes.now }
{
    let mut number: u64 = 0;
    for byte in bytes.iter().rev() {
        number = number * 256 + u64::from(*byte);
    }
    number
}

// 64 bits as a time.
pub fn time_from(u: u64) -> Timestamp
    ensures { result ≡ time_from u }
{
    Timestamp::from_raw_i64(as_i64(u))
}
// The record, fetched: the four calls read each of its bytes once, nothing else in the crate reads
// one, and everything after takes the value. So what is judged is what is used, whatever becomes of
// the bytes. `&[u8]` promises that nobody writes them while they are lent, and the host has to keep
// that promise against a guest that writes meanwhile: it lends memory that the guest cannot write
// during the call, or first copies the 26 bytes once into memory of its own and lends the copy. A slice goes in, and no array by
// `From`: docs/RULES.md names this function.
#[tactic(auto, unfolding(crate::specs::Record::fields))]
pub fn fetch(bytes: &[u8]) -> Record
    requires { length bytes.now ≡ 26 }
    ensures { result ≡ fields bytes.now }
{
    Record {
        kind: little(&bytes[..2]) as u16,
        time: time_from(little(&bytes[2..10])),
        first: time_from(little(&bytes[10..18])),
        second: time_from(little(&bytes[18..26])),
    }
}

impl Record {
    // What the kinds that use no more leave at zero: the second field, both points, and the time too.
    fn no_second(self) -> bool
        ensures { result ≡ is_zero self.second }
    {
        self.second == Timestamp::zero()
    }

    fn no_points(self) -> bool
        ensures { result ≡ (is_zero self.first && is_zero self.second) }
    {
        self.first == Timestamp::zero() && self.no_second()
    }

    fn nothing(self) -> bool
        ensures { result ≡ (is_zero self.time && (is_zero self.first && is_zero self.second)) }
    {
        self.time == Timestamp::zero() && self.no_points()
    }
}

impl TryFrom<Record> for Event {
    type Error = Refusal;

    ghost try_from_gives = { λ fields answer. told answer ≡ asked (event_of fields) };

    // The event that a record is, or 13.
    #[tactic(auto, unfolding(crate::specs::Record::event_of))]
    fn try_from(fields: Record) -> Result<Event, Refusal> {
        let Record {
            kind,
            time,
            first,
            second,
        } = fields;
        let kind = match kind {
            1 if fields.no_second() => Kind::Start(first),
            2 if fields.nothing() => Kind::StartImmediate,
            3 if fields.no_points() => Kind::Stop,
            4 => Kind::EnableLoop(first, second),
            5 if fields.no_points() => Kind::CancelLoop,
            6 if fields.nothing() => Kind::CancelAll,
            _ => return Err(Refusal::Record),
        };
        Ok(Event { time, kind })
    }
}

// ---- the command

// A record's event, or what refuses it: 13, 10, 11, 12 in this order.
#[tactic(auto, using(crate::proofs::Answers::answering), unfolding(crate::specs::Command::command_answer, crate::specs::Record::read_record))]
pub fn command(bytes: &[u8], limits: Limits) -> Result<Event, Refusal>
    ensures { told result ≡ command_answer limits.rate limits.fade bytes.now }
{
    if bytes.len() != 26 {
        return Err(Refusal::Record);
    }
    let event = Event::try_from(fetch(bytes))?;
    event.fault(limits)?;
    Ok(event)
}
