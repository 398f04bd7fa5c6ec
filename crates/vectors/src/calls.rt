// Each op's call of the port, answered as its number and its result, zeros on a refusal. The op numbers are the oracle's,
// and so are an order's: a match on them is the list's own form. Numbers by `as`:
// 64 bits are a usize's, and std has no `From` of it.
use crate::row::Row;
use laws::Refusal;
use sample_location::{SampleLocation, SampleRange};
use sampler_event::time_from as time;
use std::cmp::Ordering;
use timestamp::{Rate, Timestamp};

// A call's result in 64 bits, or its refusal.
type Reply = Result<u64, Refusal>;

pub fn timed(t: Timestamp) -> u64 {
    words::signed_bits(t.as_raw_i64())
}

fn order_number(order: Ordering) -> u64 {
    match order {
        Ordering::Less => 0,
        Ordering::Equal => 1,
        Ordering::Greater => 2,
    }
}

fn made(r: Row) -> Option<Reply> {
    let reply = match r.op {
        1 => Timestamp::from_seconds(words::double(r.a)).map(timed),
        2 => Timestamp::from_samples(words::double(r.a), r.b as usize).map(timed),
        3 => Timestamp::from_beats(words::double(r.a), words::double(r.b)).map(timed),
        4 => Ok(words::double_bits(time(r.a).as_seconds())),
        5 => time(r.a).as_samples(r.b as usize).map(words::double_bits),
        6 => time(r.a)
            .as_beats(words::double(r.b))
            .map(words::double_bits),
        _ => return moved(r),
    };
    Some(reply)
}

fn moved(r: Row) -> Option<Reply> {
    let reply = match r.op {
        7 => time(r.a)
            .incremented_by_samples(r.b as usize, r.c as usize)
            .map(timed),
        8 => time(r.a)
            .incremented_by_seconds(words::double(r.b))
            .map(timed),
        9 => time(r.a)
            .incremented_by_beats(words::double(r.b), words::double(r.c))
            .map(timed),
        10 => time(r.a).add(time(r.b)).map(timed),
        11 => time(r.a).sub(time(r.b)).map(timed),
        12 => Ok(order_number(time(r.a).cmp(time(r.b)))),
        _ => return framed(r),
    };
    Some(reply)
}

// T, S and its roundings: the rows keep to what these ask for.
fn framed(r: Row) -> Option<Reply> {
    let rate = Rate::try_from(r.b as usize).ok()?;
    let result = match r.op {
        13 => timestamp::frame_at(time(r.a), rate.hertz) as u64,
        14 => timestamp::frame_near(time(r.a), rate.hertz) as u64,
        15 if r.a <= 1099511627776 => timed(timestamp::time_of(r.a as usize, rate)),
        _ => return None,
    };
    Some(Ok(result))
}

fn located(r: Row) -> Option<Reply> {
    let a = r.a as usize;
    let b = r.b as usize;
    let place = match r.op {
        32 => SampleLocation::frame(a).offset_frames(b).map(|l| l.frame),
        33 => SampleLocation::channel(a)
            .offset_channels(b)
            .map(|l| l.channel),
        34 => SampleRange::new(a, 0, b, 0)
            .channel_range()
            .map(|range| range.end),
        35 => SampleRange::new(0, a, 0, b)
            .frame_range()
            .map(|range| range.end),
        _ => return None,
    };
    Some(place.map(|x| x as u64))
}

// No call: an answer that no row has.
const UNKNOWN: (u64, u64) = (255, 0);

// The call's number and result.
pub fn answer(r: Row) -> (u64, u64) {
    let reply = if r.op < 16 { made(r) } else { located(r) };
    match reply {
        Some(Ok(result)) => (0, result),
        Some(Err(refusal)) => (u64::from(u8::from(refusal)), 0),
        None => UNKNOWN,
    }
}
