// The pieces of a segment: how far the next one goes, the passes that only catch up at one stroke, and
// the piece loop. E and the interval are worked out in whole numbers; only T and round S are floats.
ghost use Rattle.std.specs.Prelude.{◌≡◌, true, ◌+◌, ◌-◌, ◌≤◌, ◌^◌, nat_abs};
ghost use Rattle.timestamp.specs.Time.{earlier};
ghost use Rattle.sampler_player.specs.Clock.{clock_at};
ghost use Rattle.sampler_player.specs.Pieces.{end_of, nearer, interval, left_by, rendered, segment, lent_by};
ghost use Rattle.sampler_player.specs.inner.Kept.{kept};
ghost use Rattle.sampler_player.specs.inner.Stroke.{looped, stroke_of, last_stop};
ghost use Rattle.sampler_player.specs.inner.Lending.{starting, ending, Ready};

use super::times::{difference, sum, units};
use super::turns::Turns;
use crate::{Lent, Played, Player, Points, Rated, Setup};
use sampler_voice::{Channels, Source, Voices};
use timestamp::{Rate, Timestamp, frame_near, time_of};

// `kept` stands in the contracts below, each time for another number of frames to come: a type with it would
// carry that number as a field, which no code reads, and is no plainer.
impl Player {
    // E, up to the last stop.
    fn next_loop_position(self, rated: Rated) -> Timestamp
        requires short { rated.setup.frames ≤ 4194304 }
        requires player_kept { kept rated.setup 0 self ≡ true }
        ensures value { earlier last_stop result.bits ≡ nearer (clock_at rated.setup.rate) rated.setup last_stop (end_of (clock_at rated.setup.rate) rated.setup self self.points) }
        ensures bound { nat_abs result.bits ≤ 2 ^ 49 + 2 ^ 42 }
    {
        match self.points {
            Points::Absent => time_of(rated.setup.frames, rated.rate()),
            Points::Between(from, end) => {
                Turns::between(self.start, from, end).end(self.completed)
            }
        }
    }

    // The frames of the next piece: up to E, and at most those that remain.
    pub fn interval(self, rated: Rated, remaining: usize) -> usize
        requires short { rated.setup.frames ≤ 4194304 }
        requires remaining_bound { remaining ≤ 4096 }
        requires player_kept { kept rated.setup remaining self ≡ true }
        ensures { result ≡ interval (clock_at rated.setup.rate) rated.setup self remaining }
    {
        let gap = difference(self.next_loop_position(rated), self.position);
        if gap.is_before(time_of(remaining, rated.rate())) {
            ((2 * (units(gap) * rated.setup.rate) + 4294967296) / 8589934592).min(remaining)
        } else {
            remaining
        }
    }

    // The Rust's loop_back, so many times over.
    fn loop_back(self, from: Timestamp, completed: usize, rate: Rate) -> Player
        ensures { result ≡ looped rate.hertz from completed self }
    {
        Player { completed, ..self }.assign_voice(frame_near(from, rate.hertz))
    }

    // The passes that only catch up, at one stroke.
    pub fn catch_up(self, rated: Rated) -> Player
        requires player_kept { kept rated.setup 0 self ≡ true }
        ensures { result ≡ stroke_of rated.setup.rate self }
    {
        match self.points {
            Points::Absent => self,
            Points::Between(from, end) => {
                let rate = rated.rate();
                let due = Turns::between(self.start, from, end).due(self.position, rate);
                if self.completed < due {
                    self.loop_back(from, due, rate)
                } else {
                    self
                }
            }
        }
    }

    // A piece: n frames from frame `at` of the output on.
    fn process_voices(
        self,
        setup: Setup,
        lent: Lent,
        out: &mut [f32],
        at: usize,
        n: usize,
    ) -> Player
        requires ready { Ready setup (lent_by lent) out.old }
        requires within_block { at + n ≤ lent.block }
        requires player_kept { kept setup n self ≡ true }
        ensures { ending result out.new 1 ≡ left_by (rendered (clock_at setup.rate) setup (lent_by lent.entry) n (starting self out.old at n)) }
    {
        let source = Source {
            recording: lent.recording,
            frames: setup.frames,
            fade: lent.table,
            channels: Channels {
                recording: setup.channels,
                output: lent.channels,
            },
        };
        // Arrays go by a variable: the check reads no array straight from one struct into another.
        let voices = self.voices;
        let heard = Voices { voices }.render(out, lent.block, at, n, source);
        let voices = heard.voices;
        Player {
            voices,
            position: sum(self.position, time_of(n, Rated { setup }.rate())),
            ..self
        }
    }

    // The Rust's process_sample: the piece loop, inside the loop over segments and left by a break: document 01's
    // form, which no iterator fits, since each piece says how many frames are left. A piece of no frames, which
    // only a player without loop points comes to, ends it.
    pub fn play_segment(
        self,
        setup: Setup,
        lent: Lent,
        out: &mut [f32],
        at: usize,
        remaining: usize,
    ) -> Played
        requires ready { Ready setup (lent_by lent) out.old }
        requires within_block { at + remaining ≤ lent.block }
        requires player_kept { kept setup (lent.block - at) self ≡ true }
        ensures { ending result.player out.new result.pieces ≡ left_by (segment (clock_at setup.rate) setup (lent_by lent.entry) (starting self out.old at remaining)) }
    {
        let rated = Rated { setup };
        let mut player = self;
        let mut done = at;
        let mut left = remaining;
        let mut pieces: usize = 0;
        while 0 < left {
            player = player.catch_up(rated);
            let n = player.interval(rated, left);
            if n == 0 {
                break;
            }
            player = player.process_voices(setup, lent, out, done, n);
            done += n;
            left -= n;
            pieces += 1;
        }
        Played { player, pieces }
    }
}
