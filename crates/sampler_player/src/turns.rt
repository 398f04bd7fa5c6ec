// A loop in units: the code's side of E and of the catch-up.
ghost use Rattle.std.specs.Prelude.{◌≡◌, ◌+◌, ◌*◌, ◌<◌, ◌≤◌, ◌^◌, pos, nat_abs, ◌+ℤ◌, ◌-ℤ◌};

use super::times::{difference, sum, time_at, units};
use timestamp::{Rate, Timestamp};

// Later than any stop of a block.
const LATE: usize = 562949953421312;

// The first end, counted from the start position, and the length of each turn.
#[derive(Clone, Copy)]
pub struct Turns {
    first: Timestamp,
    length: usize,
    ghost first_bound: { nat_abs first.bits ≤ 2 ^ 42 },
    ghost length_nonzero: { 0 < length },
    ghost length_bound: { length ≤ 2 ^ 42 },
}

impl Turns {
    ghost use Rattle.timestamp.specs.Time.{earlier};
    ghost use Rattle.sampler_player.specs.Clock.{not_negative};
    ghost use Rattle.sampler_player.specs.inner.Stroke.{loop_length, half_frame, reaching, last_stop};

    pub fn between(start: Timestamp, from: Timestamp, end: Timestamp) -> Turns
        requires first_bound { nat_abs (end.bits -ℤ start.bits) ≤ 2 ^ 42 }
        requires ordered { end.bits -ℤ from.bits ≡ pos (loop_length from end) }
        requires length_nonzero { 0 < loop_length from end }
        requires length_bound { loop_length from end ≤ 2 ^ 42 }
        ensures first { result.first.bits ≡ end.bits -ℤ start.bits }
        ensures length { result.length ≡ loop_length from end }
    {
        Turns {
            first: difference(end, start),
            length: units(difference(end, from)),
        }
    }

    // E, up to the last stop: first + length · completed, of which no more than LATE counts.
    pub fn end(self, completed: usize) -> Timestamp
        ensures value { earlier last_stop result.bits ≡ earlier last_stop (self.first.bits +ℤ pos (self.length * completed)) }
        ensures bound { nat_abs result.bits ≤ 2 ^ 49 + 2 ^ 42 }
    {
        let turned = self.length.saturating_mul(completed);
        sum(self.first, time_at(turned.min(LATE)))
    }

    // How many turns reach from the first end to the position, and half a frame on.
    #[tactic(auto, using(crate::proofs::Reaching::ceil_is))]
    pub fn due(self, position: Timestamp, rate: Rate) -> usize
        requires { nat_abs position.bits ≤ 2 ^ 49 }
        ensures { result ≡ reaching self.length (not_negative (position.bits -ℤ self.first.bits +ℤ pos (half_frame rate.hertz))) }
    {
        // Half a frame in units, rounded up.
        let half = 2147483648usize.div_ceil(rate.hertz);
        let past = difference(position, self.first);
        units(sum(past, time_at(half))).div_ceil(self.length)
    }
}
